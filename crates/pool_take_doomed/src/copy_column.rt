// Views copied to an answer. In every record of a version the view is one number, so that one function serves the retiring ring,
// the destroy ring and the spares, which are packed: a ring that begins at place 0.
ghost use Rattle.std.specs.Prelude.{◌≡◌, ◌+◌, ◌*◌, ◌≤◌, ◌<◌, length};
ghost use Rattle.std.proofs.lemmas.List.Edits.{sets};
ghost use Rattle.pool_take_doomed.specs.Views.{column};

use base_tables::place;

// Stores number k of each of the n records from the i-th on in `out`, from index `at` on. A record has w numbers; the ring has
// `cap` places and begins at place `head`.
pub fn copy_column(
    out: &mut [u64],
    at: usize,
    s: &[u64],
    w: usize,
    k: usize,
    cap: usize,
    head: usize,
    i: usize,
    n: usize,
)
    requires { (at + n ≤ length out.old) × (w * cap ≤ length s.now) × (k < w) × (head < cap) × (i + n ≤ cap) }
    ensures { out.new ≡ sets out.old at (column w k cap head s.now i n) }
{
    for j in 0..n {
        let p = place(cap, head, i + j);
        out[at + j] = s[w * p + k];
    }
}
