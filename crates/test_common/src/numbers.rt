// Numbers put into a line of output.
ghost use Rattle.std.specs.Prelude.{◌+◌, ◌≤◌, length};

use base_digits::{put_number, put_text};

// Puts a number's digits, at most twenty, and returns where they end.
pub fn put_digits(out: &mut [u8], at: usize, value: u64) -> usize
    requires { at + 20 ≤ length out.old }
    ensures { result ≤ at + 20 }
{
    put_number(out, at, value)
}

// Puts a byte and the number behind it, and returns where they end.
pub fn put_after(out: &mut [u8], at: usize, mark: &[u8; 1], value: u64) -> usize
    requires { at + 21 ≤ length out.old }
    ensures { result ≤ at + 21 }
{
    let next = put_text(out, at, mark);
    put_digits(out, next, value)
}
