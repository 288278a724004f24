// Lines of the entries of an answer buffer. Each function puts them from `at` on and returns where they end.
ghost use Rattle.std.specs.Prelude.{◌+◌, ◌*◌, ◌≤◌, length, take};
ghost use mathlib.Core.List.{[], ◌∷◌, flat_map};
ghost use Rattle.base_tables.specs.Records.{table};
ghost use Rattle.pool_books.specs.LentLists.{read_copy};
ghost use Rattle.base_digits.specs.Digits.{digits_of};
ghost use Rattle.event_answers.specs.Printed.{copy_row, view_row, most_row};
ghost use Rattle.base_digits.specs.Put.{Put};
ghost use Rattle.event_answers.specs.Ended.{fields_ended};
ghost use Rattle.pool_memory.specs.MemoryConstants.{copy_stride};

use crate::row::{put_field, put_last, put_row};
use base_digits::{put_number, put_text};
use pool_memory::COPY_STRIDE;

// Puts a line for each of the first n view numbers.
pub fn put_views(out: &mut [u8], at: usize, number: u64, views: &[u64], n: usize) -> usize
    requires { (at + most_row * n ≤ length out.old) × (n ≤ length views.now) }
    ensures { Put out.old at (flat_map (view_row number) (take n views.now)) result out.new }
{
    let mut end = at;
    for view in &views[..n] {
        end = put_row(out, end, number, *view);
    }
    end
}

// Puts the box of a copy, and the end of its line.
fn put_box(out: &mut [u8], at: usize, left: u64, top: u64, width: u64, height: u64) -> usize
    requires { at + 85 ≤ length out.old }
    ensures { (result ≤ at + 85)
        × Put out.old at (fields_ended (digits_of left ∷ digits_of top ∷ digits_of width ∷ digits_of height ∷ [])) result out.new }
{
    let second = put_field(out, at, left);
    let third = put_field(out, second, top);
    let fourth = put_field(out, third, width);
    put_last(out, fourth, height)
}

// Puts the line of the copy that stands in the first seven numbers.
fn put_copy(out: &mut [u8], at: usize, number: u64, copy: &[u64]) -> usize
    requires { (at + most_row ≤ length out.old) × (copy_stride ≤ length copy.now) }
    ensures { (result ≤ at + most_row) × Put out.old at (copy_row number (read_copy copy.now)) result out.new }
{
    let start = put_number(out, at, number);
    let second = put_field(out, start, copy[0]);
    let region = put_field(out, second, copy[1]);
    if copy[2] == 1 {
        return put_text(out, region, b",-,-,-,-\n");
    }
    put_box(out, region, copy[3], copy[4], copy[5], copy[6])
}

// Puts a line for each of the first n copies.
// Stays a call of its own: within its caller, which is large, the place where a line ends goes through memory, and a plan of 90 copies takes a fifth more time.
#[inline(never)]
pub fn put_copies(out: &mut [u8], at: usize, number: u64, copies: &[u64], n: usize) -> usize
    requires { (at + most_row * n ≤ length out.old) × (copy_stride * n ≤ length copies.now) }
    ensures { Put out.old at (flat_map (copy_row number) (table copy_stride read_copy n copies.now)) result out.new }
{
    let mut end = at;
    for i in 0..n {
        end = put_copy(out, end, number, &copies[COPY_STRIDE * i..]);
    }
    end
}
