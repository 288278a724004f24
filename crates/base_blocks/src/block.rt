// Moves, copies, fills and turns blocks of numbers inside one lent slice. There is no heap, so every store of the pool is such a slice.
ghost use Rattle.std.specs.Prelude.{◌≡◌, ◌+◌, ◌≤◌, length, replicate};
ghost use Rattle.std.proofs.lemmas.List.Edits.{sets};
ghost use Rattle.base_blocks.specs.Blocks.{moved, turned, rotated};

// Moves the n numbers from at + k on down to at, which closes a gap of k; what stands past them stays.
#[tactic(auto, unfolding(crate::specs::Blocks::moved))]
pub fn shift_down(s: &mut [u64], at: usize, k: usize, n: usize)
    requires { at + k + n ≤ length s.old }
    ensures { s.new ≡ moved s.old at (at + k) n }
{
    s.copy_within(at + k..at + k + n, at);
}

// Moves the n numbers from at on up to at + k, which opens a gap of k. The blocks may overlap.
#[tactic(auto, unfolding(crate::specs::Blocks::moved))]
pub fn shift_up(s: &mut [u64], at: usize, k: usize, n: usize)
    requires { at + k + n ≤ length s.old }
    ensures { s.new ≡ moved s.old (at + k) at n }
{
    s.copy_within(at..at + n, at + k);
}

// Stores the numbers of src from index at on.
pub fn copy_in(s: &mut [u64], at: usize, src: &[u64])
    requires { at + length src.now ≤ length s.old }
    ensures { s.new ≡ sets s.old at src.now }
{
    s[at..at + src.len()].copy_from_slice(src);
}

// Stores x n times from index at on.
pub fn fill(s: &mut [u64], at: usize, n: usize, x: u64)
    requires { at + n ≤ length s.old }
    ensures { s.new ≡ sets s.old at (replicate n x) }
{
    // A loop, since the `fill` of std, which keeps the last place for x itself, takes 5 to 12 instructions more a call from four numbers on.
    for j in 0..n {
        s[at + j] = x;
    }
}

// Reverses the n numbers from at on: the outermost two change places, then those inside them.
pub fn reverse(s: &mut [u64], at: usize, n: usize)
    requires { at + n ≤ length s.old }
    ensures { s.new ≡ turned at n s.old }
{
    s[at..at + n].reverse();
}

// Puts the k numbers from at + n on before the n numbers from at on. Each block is reversed, then both together, which needs no second store.
pub fn rotate(s: &mut [u64], at: usize, n: usize, k: usize)
    requires { at + n + k ≤ length s.old }
    ensures { s.new ≡ rotated at n k s.old }
{
    reverse(s, at, n);
    reverse(s, at + n, k);
    reverse(s, at, n + k);
}
