// A part of a packed slice, renewed: what stands behind it moves.
ghost use Rattle.std.specs.Prelude.{◌≡◌, ◌+◌, ◌≤◌, length, replicate};
ghost use Rattle.std.proofs.lemmas.List.Edits.{sets};
ghost use Rattle.base_blocks.specs.Blocks.{moved};

use base_blocks::{fill, shift_down, shift_up};

// Moves the n numbers from index `from` on to index `to`.
pub fn move_block(s: &mut [u64], to: usize, from: usize, n: usize)
    requires { (to + n ≤ length s.old) × (from + n ≤ length s.old) }
    ensures { s.new ≡ moved s.old to from n }
{
    if to < from {
        shift_down(s, to, from - to, n);
        return;
    }
    if from < to {
        shift_up(s, from, to - from, n);
    }
}

// Makes way for n times 0 in place of the `old` numbers from index `at` on: the `later` numbers after them move.
pub fn renew_block(s: &mut [u64], at: usize, old: usize, n: usize, later: usize)
    requires { (at + old + later ≤ length s.old) × (at + n + later ≤ length s.old) }
    ensures { s.new ≡ sets (moved s.old (at + n) (at + old) later) at (replicate n 0) }
{
    move_block(s, at + n, at + old, later);
    fill(s, at, n, 0);
}
