// Spares given up: their views go to the end of the destroy ring, each with its texture's bytes.
ghost use Rattle.std.specs.Prelude.{◌≡◌, ◌+◌, ◌*◌, ◌≤◌, ◌<◌, length};
ghost use Rattle.base_tables.specs.Rings.{laid};
ghost use Rattle.pool_records.specs.Doomed.{write_doomed};
ghost use Rattle.pool_take_doomed.specs.Given.{given_records};
ghost use Rattle.pool_records.specs.RecordConstants.{doomed_stride, spare_stride};

use base_tables::ring_push;
use pool_records::{DOOMED_STRIDE, SPARE_STRIDE};

// Queues the k spares from place `from` on for destruction, after the n versions of the ring. The destroys are spread over several
// drains, so that no drain destroys a burst at once.
pub fn push_spares(
    doomed: &mut [u64],
    cap: usize,
    first: usize,
    n: usize,
    spares: &[u64],
    from: usize,
    k: usize,
    bytes: u64,
)
    requires { (doomed_stride * cap ≤ length doomed.old) × (first < cap) × (n + k ≤ cap) × (spare_stride * (from + k) ≤ length spares.now) }
    ensures { doomed.new
        ≡ laid doomed_stride write_doomed cap first n (given_records spares.now bytes from k) doomed.old }
{
    for j in 0..k {
        let entry = [spares[SPARE_STRIDE * (from + j)], bytes];
        ring_push(doomed, DOOMED_STRIDE, cap, first, n + j, &entry);
    }
}
