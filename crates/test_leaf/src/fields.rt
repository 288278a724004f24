// The fields of a question, which are parted by commas and may be empty, and their numbers. The event program's text is read by the same functions.
ghost use Rattle.std.specs.Prelude.{◌+◌, ◌≤◌, length, IfSome};

use event_text::number_at;
use grid_rects::TexelRect;
use test_common::part_end;

// Numbers read one after the other. The next field starts at `next`, which lies past the end of the fields if none is left.
#[derive(Clone, Copy)]
pub struct Numbers<const N: usize> {
    pub values: [u64; N],
    pub next: usize,
}

// Returns where the field that starts at `at` ends: at the next comma, or at the end of all.
pub fn field_end(fields: &[u8], at: usize) -> usize
    requires { at ≤ length fields.now }
    ensures { (at ≤ result) × (result ≤ length fields.now) }
{
    part_end(fields, at, b',')
}

// Reads N numbers, from the field that starts at `at` on. There are none if a field of them is missing or malformed.
pub fn read_numbers<const N: usize>(fields: &[u8], at: usize) -> Option<Numbers<N>>
    requires { (N ≤ 8) × (length fields.now ≤ 65536) × (at ≤ length fields.now + 1) }
    ensures { IfSome result (λ n. (at + N ≤ n.next) × (n.next ≤ length fields.now + 1)) }
{
    let mut values = [0u64; N];
    let mut next = at;
    for i in 0..N {
        if fields.len() < next {
            return None;
        }
        let read = number_at(fields, next)?;
        values[i] = read.value;
        next = read.end + 1;
    }
    Some(Numbers { values, next })
}

// Reads N numbers that end the fields. There are none if a field is left.
pub fn read_all<const N: usize>(fields: &[u8], at: usize) -> Option<[u64; N]>
    requires { (N ≤ 8) × (length fields.now ≤ 65536) × (at ≤ length fields.now + 1) }
{
    let numbers = read_numbers(fields, at)?;
    if numbers.next <= fields.len() {
        return None;
    }
    Some(numbers.values)
}

// Returns whether all are 32-bit numbers.
pub fn are_u32(numbers: &[u64]) -> bool {
    numbers.iter().all(|number| *number <= u32::MAX as u64)
}

// Returns the rectangle X,Y,WIDTH,HEIGHT.
pub fn rect_of([x, y, width, height]: [u64; 4]) -> TexelRect {
    TexelRect {
        x,
        y,
        width,
        height,
    }
}
