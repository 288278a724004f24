// The question on the bytes of a copy. The Rust has no such function, so no number of it is one of 32 bits there: all are read whole.
ghost use Rattle.std.specs.Prelude.{◌+◌, ◌≤◌, length};

use crate::answer::{Answer, Rest, told};
use crate::fields::{read_all, read_numbers, rect_of};
use crate::shape::shape_of;
use event_text::is_word;
use grid_rects::Region;

// Returns the region of the fields from `at` on: a dash for the whole level, or X,Y,WIDTH,HEIGHT. There is none in other fields.
fn region_of(fields: &[u8], at: usize) -> Option<Region>
    requires { (length fields.now ≤ 65536) × (at ≤ length fields.now + 1) }
{
    if fields.len() < at {
        return None;
    }
    if is_word(&fields[at..], b"-") {
        return Some(Region::Whole);
    }
    Some(Region::Part(rect_of(read_all(fields, at)?)))
}

// Answers FORMAT,WIDTH,HEIGHT,DEPTH,LEVELS,KIND,LEVEL,REGION with the bytes that a copy of the region moves.
pub fn copy_cost(fields: &[u8]) -> Option<Answer>
    requires { length fields.now ≤ 65536 }
{
    let numbers = read_numbers::<7>(fields, 0)?;
    let [format, width, height, depth, levels, kind, level] = numbers.values;
    let shape = shape_of([format, width, height, depth, levels, kind]);
    let region = region_of(fields, numbers.next)?;
    let bytes = grid_rects::copy_bytes(shape, level, region);
    Some(told(bytes.map(Rest::Number)))
}
