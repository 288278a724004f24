// Lines of output, put byte by byte where they are to stand. Each function puts its bytes from `at` on and returns where they end.
ghost use Rattle.std.specs.Prelude.{◌+◌, ◌≤◌, [], ◌∷◌, ◌++◌, length};
ghost use Rattle.event_text.specs.Fields.{comma};
ghost use Rattle.base_digits.specs.Digits.{digits_of};
ghost use Rattle.event_answers.specs.Printed.{accepted_text, accepted_row, row};
ghost use Rattle.base_digits.specs.Put.{Put};
ghost use Rattle.event_answers.specs.Ended.{fields_ended};

use base_digits::{put_number, put_text};

// Puts a field that is a number.
pub fn put_field(out: &mut [u8], at: usize, n: u64) -> usize
    requires { at + 21 ≤ length out.old }
    ensures { (result ≤ at + 21) × Put out.old at (comma ∷ digits_of n) result out.new }
{
    out[at] = b',';
    put_number(out, at + 1, n)
}

// Puts the last field of a line.
pub fn put_last(out: &mut [u8], at: usize, n: u64) -> usize
    requires { at + 22 ≤ length out.old }
    ensures { (result ≤ at + 22) × Put out.old at (fields_ended (digits_of n ∷ [])) result out.new }
{
    let end = put_field(out, at, n);
    out[end] = b'\n';
    end + 1
}

// Puts a line of one number.
pub fn put_row(out: &mut [u8], at: usize, number: u64, n: u64) -> usize
    requires { at + 42 ≤ length out.old }
    ensures { (result ≤ at + 42) × Put out.old at (row number (digits_of n ∷ [])) result out.new }
{
    let start = put_number(out, at, number);
    put_last(out, start, n)
}

// Puts a line of this text after its number.
pub fn put_words(out: &mut [u8], at: usize, number: u64, words: &[u8]) -> usize
    requires { at + 20 + length words.now ≤ length out.old }
    ensures { Put out.old at (digits_of number ++ words.now) result out.new }
{
    let start = put_number(out, at, number);
    put_text(out, start, words)
}

// Puts the number and the outcome of an accepted call's line.
pub fn put_accepted(out: &mut [u8], at: usize, number: u64) -> usize
    requires { at + 22 ≤ length out.old }
    ensures { (result ≤ at + 22) × Put out.old at (digits_of number ++ (comma ∷ accepted_text)) result out.new }
{
    let start = put_number(out, at, number);
    out[start] = b',';
    out[start + 1] = b'0';
    start + 2
}

// Puts an accepted call's line of one number.
pub fn put_count(out: &mut [u8], at: usize, number: u64, n: u64) -> usize
    requires { at + 44 ≤ length out.old }
    ensures { (result ≤ at + 44) × Put out.old at (accepted_row number (digits_of n ∷ [])) result out.new }
{
    let start = put_accepted(out, at, number);
    put_last(out, start, n)
}

// Puts an accepted call's line of two numbers.
pub fn put_pair(out: &mut [u8], at: usize, number: u64, a: u64, b: u64) -> usize
    requires { at + 65 ≤ length out.old }
    ensures { Put out.old at (accepted_row number (digits_of a ∷ digits_of b ∷ [])) result out.new }
{
    let start = put_accepted(out, at, number);
    let second = put_field(out, start, a);
    put_last(out, second, b)
}
