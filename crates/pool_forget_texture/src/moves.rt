// Numbers moved down.
ghost use Rattle.std.specs.Prelude.{◌≡◌, ◌+◌, ◌≤◌, length};
ghost use Rattle.base_blocks.specs.Blocks.{moved};

use base_blocks::shift_down;

// Moves the n numbers from `from` on down to `to`, and writes nothing where they stand there already. What stands past them stays.
pub fn move_down(s: &mut [u64], to: usize, from: usize, n: usize)
    requires { (to ≤ from) × (from + n ≤ length s.old) }
    ensures { s.new ≡ moved s.old to from n }
{
    if to == from {
        return;
    }
    shift_down(s, to, from - to, n);
}
