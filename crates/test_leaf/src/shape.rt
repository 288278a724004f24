// Questions on shapes. A field that is a 32-bit number in the Rust is malformed from 2^32 on; formats and kinds are no
// numbers there and are read whole.
ghost use Rattle.std.specs.Prelude.{◌≤◌, length};

use crate::answer::{Answer, Rest, accepted, number, refused, told};
use crate::fields::{are_u32, read_all};
use grid_shapes::{Refusal, VersionShape};
use test_common::plain_shape;

// Returns the shape of format, width, height, depth, levels and kind.
pub fn shape_of([format, width, height, depth, levels, kind]: [u64; 6]) -> VersionShape {
    plain_shape(format, width, height, depth, levels, kind)
}

// Returns the shape of those six numbers if width, height, depth and levels are 32-bit numbers.
fn small_shape_of(numbers: [u64; 6]) -> Option<VersionShape> {
    if are_u32(&numbers[1..5]) {
        Some(shape_of(numbers))
    } else {
        None
    }
}

// Answers 1 for yes, 0 for no.
pub fn yes_or_no(yes: bool) -> Answer {
    accepted(Rest::Number(yes as u64))
}

// Answers BASE,LEVEL with the level's extent.
pub fn level_extent(fields: &[u8]) -> Option<Answer>
    requires { length fields.now ≤ 65536 }
{
    let numbers = read_all::<2>(fields, 0)?;
    let [base, level] = numbers;
    if (level <= 14) & are_u32(&numbers) {
        Some(number(grid_shapes::level_extent(base, level)))
    } else {
        None
    }
}

// Answers FORMAT,WIDTH,HEIGHT,DEPTH,LEVELS,KIND with the bytes of a version.
pub fn shape_bytes(fields: &[u8]) -> Option<Answer>
    requires { length fields.now ≤ 65536 }
{
    let shape = small_shape_of(read_all(fields, 0)?)?;
    Some(told(grid_shapes::bytes(shape).map(Rest::Number)))
}

// Answers FORMAT,WIDTH,HEIGHT,DEPTH,LEVELS,KIND with the slices.
pub fn shape_slices(fields: &[u8]) -> Option<Answer>
    requires { length fields.now ≤ 65536 }
{
    let shape = small_shape_of(read_all(fields, 0)?)?;
    Some(if grid_shapes::is_shape(shape) {
        accepted(Rest::Number(grid_shapes::slices(shape)))
    } else {
        refused(Refusal::BadShape)
    })
}

// Answers FORMAT,WIDTH,HEIGHT,DEPTH,LEVELS,KIND,USAGE with whether every write is reported.
pub fn shape_records(fields: &[u8]) -> Option<Answer>
    requires { length fields.now ≤ 65536 }
{
    let [format, width, height, depth, levels, kind, usage] = read_all::<7>(fields, 0)?;
    let shape = small_shape_of([format, width, height, depth, levels, kind])?;
    if !are_u32(&[usage]) {
        return None;
    }
    Some(match grid_shapes::records_every_write(shape, usage) {
        Ok(records) => yes_or_no(records),
        Err(refusal) => refused(refusal),
    })
}
