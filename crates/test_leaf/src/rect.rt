// Questions on one rectangle of a level.
ghost use Rattle.std.specs.Prelude.{◌≤◌, length};

use crate::answer::{Answer, Rest, refused, told};
use crate::fields::{are_u32, field_end, read_all, read_numbers, rect_of};
use crate::shape::yes_or_no;
use event_text::{is_word, number_of};
use grid_rects::TexelRect;
use grid_shapes::Refusal;

// Returns the source format of an upload, which is none for a dash: an upload by texel. Another field has nothing of the kind.
fn source_of(field: &[u8]) -> Option<Option<u64>> {
    if is_word(field, b"-") {
        return Some(None);
    }
    Some(Some(number_of(field)?))
}

// Answers FORMAT,X,Y,WIDTH,HEIGHT,EXTENT_W,EXTENT_H with the rectangle that an upload writes.
pub fn upload(fields: &[u8]) -> Option<Answer>
    requires { length fields.now ≤ 65536 }
{
    let end = field_end(fields, 0);
    let source = source_of(&fields[0..end])?;
    let numbers = read_all::<6>(fields, end + 1)?;
    if !are_u32(&numbers) {
        return None;
    }
    let [x, y, width, height, across, down] = numbers;
    let rect = rect_of([x, y, width, height]);
    let written = grid_rects::upload_written_rect(rect, across, down, source);
    Some(told(written.map(Rest::Box)))
}

// Returns whether a rectangle lies on the format's block grid.
fn is_on_grid(format: u64, rect: TexelRect, width: u64, height: u64) -> bool {
    grid_rects::rect_on_block_grid(grid_shapes::block_edge(format), rect, width, height)
}

// Answers FORMAT,X,Y,WIDTH,HEIGHT,EXTENT_W,EXTENT_H with whether the rectangle lies on the block grid.
pub fn on_grid(fields: &[u8]) -> Option<Answer>
    requires { length fields.now ≤ 65536 }
{
    let first = read_numbers::<1>(fields, 0)?;
    let [format] = first.values;
    let numbers = read_all::<6>(fields, first.next)?;
    if !are_u32(&numbers) {
        return None;
    }
    if 8 < format {
        return Some(refused(Refusal::BadShape));
    }
    let [x, y, width, height, across, down] = numbers;
    let rect = rect_of([x, y, width, height]);
    Some(yes_or_no(is_on_grid(format, rect, across, down)))
}
