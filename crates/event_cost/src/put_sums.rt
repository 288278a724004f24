// The last line of output.
ghost use Rattle.std.specs.Prelude.{◌≤◌, length};
ghost use Rattle.base_digits.specs.Put.{Put};
ghost use Rattle.event_cost.specs.Costs.{sum_row, most_sum_row};

use crate::put_sum::{put_last_sum, put_sum};
use crate::sums::Sums;
use base_digits::put_text;

// Puts the line of the sums at the front of `out`, and returns where it ends.
pub fn put_sums(out: &mut [u8], sums: Sums) -> usize
    requires { most_sum_row ≤ length out.old }
    ensures { (result ≤ most_sum_row) × Put out.old 0 (sum_row sums) result out.new }
{
    let start = put_text(out, 0, b"sum");
    let second = put_sum(out, start, sums.moved);
    put_last_sum(out, second, sums.whole)
}
