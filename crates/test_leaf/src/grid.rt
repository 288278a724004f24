// The question on a stamp grid.
ghost use Rattle.std.specs.Prelude.{◌+◌, ◌≤◌, length};
ghost use Rattle.grid_stamps.specs.Grids.{TilingOk, stamp_count};

use crate::answer::{Answer, Rest};
use crate::fields::{are_u32, read_numbers, rect_of};
use grid_stamps::{PAGE_STAMPS, Tiling};

// Stamps a page with 1, 2, 3, .. at the rectangles from the field at `at` on, one at least, and returns the newest stamp.
fn stamp_all(page: &mut [u64], tiling: Tiling, fields: &[u8], at: usize) -> Option<u64>
    requires tiling_ok { TilingOk tiling × (stamp_count tiling ≤ length page.old) }
    requires fields_len_bound { (length fields.now ≤ 65536) × (at ≤ length fields.now + 1) }
{
    if fields.len() < at {
        return None;
    }
    let mut next = at;
    let mut newest = 0;
    let mut stamp = 0;
    // Fields have no fixed length, so no range says where the next rectangle begins.
    while next <= fields.len() {
        let numbers = read_numbers::<4>(fields, next)?;
        let values = numbers.values;
        if !are_u32(&values) {
            return None;
        }
        stamp += 1;
        newest = grid_stamps::stamp(page, tiling, rect_of(values), stamp, newest);
        next = numbers.next;
    }
    Some(newest)
}

// Answers what the rectangles write since `held`, in an empty grid.
fn since(tiling: Tiling, held: u64, fields: &[u8], at: usize) -> Option<Answer>
    requires tiling_ok { TilingOk tiling }
    requires fields_len_bound { (length fields.now ≤ 65536) × (at ≤ length fields.now + 1) }
{
    let mut page = [0u64; PAGE_STAMPS];
    let newest = stamp_all(&mut page, tiling, fields, at)?;
    let rest = match grid_stamps::written_since(&page, tiling, newest, held) {
        Some(rect) => Rest::Box(rect),
        None => Rest::NoBox,
    };
    Some(Answer {
        first: newest,
        rest,
    })
}

// Answers the same in a level of that format and those extents.
fn since_in(
    format: u64,
    width: u64,
    height: u64,
    held: u64,
    fields: &[u8],
    at: usize,
) -> Option<Answer>
    requires width_bound { (width ≤ 16384) × (height ≤ 16384) }
    requires fields_len_bound { (length fields.now ≤ 65536) × (at ≤ length fields.now + 1) }
{
    let block = grid_shapes::block_edge(format);
    let tiling = Tiling {
        across: grid_axes::axis_of(width, block),
        down: grid_axes::axis_of(height, block),
    };
    since(tiling, held, fields, at)
}

// Answers FORMAT,WIDTH,HEIGHT,HELD,X,Y,W,H[,X,Y,W,H ..] with the newest stamp and the box since.
pub fn grid_since(fields: &[u8]) -> Option<Answer>
    requires { length fields.now ≤ 65536 }
{
    let numbers = read_numbers::<4>(fields, 0)?;
    let [format, width, height, held] = numbers.values;
    if (8 < format) | (width == 0) | (height == 0) {
        return None;
    }
    if (16384 < width) | (16384 < height) {
        return None;
    }
    since_in(format, width, height, held, fields, numbers.next)
}
