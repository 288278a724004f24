// Numbers right-aligned in a column.
ghost use Rattle.std.specs.Prelude.{◌≡◌, ◌+◌, ◌≤◌, length, replicate};
ghost use Rattle.std.proofs.lemmas.List.Edits.{sets};
ghost use Rattle.base_digits.specs.Characters.{blank};
ghost use Rattle.base_digits.specs.Aligned.{right};
ghost use Rattle.base_digits.specs.Digits.{digits_of};

use crate::digits::put_number;

// Returns how many digits a number has.
fn digit_count(n: u64) -> usize
    ensures { result ≡ length (digits_of n) }
{
    n.max(1).ilog10() as usize + 1
}

// Puts blanks from `at` on.
pub fn put_blanks(out: &mut [u8], at: usize, count: usize)
    requires { at + count ≤ length out.old }
    ensures { out.new ≡ sets out.old at (replicate count blank) }
{
    // A loop, since the `fill` of std, which keeps the last place for the value itself, takes 5 to 12 instructions more a call from four places on.
    for i in 0..count {
        out[at + i] = b' ';
    }
}

// Puts a number right-aligned into the column of `width` bytes from `at` on. The digits are put by `put_number`, which asks for room for twenty.
pub fn put_right(out: &mut [u8], at: usize, width: usize, n: u64)
    requires { (length (digits_of n) ≤ width) × (at + width + 20 ≤ length out.old) }
    ensures { out.new ≡ sets out.old at (right width (digits_of n)) }
{
    let blanks = width - digit_count(n);
    put_blanks(out, at, blanks);
    put_number(out, at + blanks, n);
}
