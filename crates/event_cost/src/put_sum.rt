// A sum as a field of a line. Each function puts its bytes from `at` on and returns where they end.
ghost use Rattle.std.specs.Prelude.{◌+◌, ◌≤◌, [], ◌∷◌, length};
ghost use Rattle.base_digits.specs.Put.{Put};
ghost use Rattle.event_text.specs.Fields.{comma};
ghost use Rattle.event_answers.specs.Ended.{fields_ended};
ghost use Rattle.event_cost.specs.Costs.{sum_field};

use base_digits::put_text;
use event_answers::put_field;

// Puts a sum after a comma. The largest number may stand for a larger sum, so it is not shown.
pub fn put_sum(out: &mut [u8], at: usize, sum: u64) -> usize
    requires { at + 21 ≤ length out.old }
    ensures { (result ≤ at + 21) × Put out.old at (comma ∷ sum_field sum) result out.new }
{
    if sum == u64::MAX {
        return put_text(out, at, b",-");
    }
    put_field(out, at, sum)
}

// Puts a sum that ends its line.
pub fn put_last_sum(out: &mut [u8], at: usize, sum: u64) -> usize
    requires { at + 22 ≤ length out.old }
    ensures { (result ≤ at + 22) × Put out.old at (fields_ended (sum_field sum ∷ [])) result out.new }
{
    let end = put_sum(out, at, sum);
    out[end] = b'\n';
    end + 1
}
