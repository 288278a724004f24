// The destroy ring: `cap` places of two numbers each, the oldest record at place `first`.
ghost use Rattle.std.specs.Prelude.{◌≡◌, ◌*◌, ◌≤◌, ◌<◌, length};
ghost use Rattle.std.proofs.lemmas.List.Edits.{sets};
ghost use Rattle.base_tables.specs.Rings.{place_of, along};
ghost use Rattle.pool_records.specs.Doomed.{read_doomed, write_doomed};
ghost use Rattle.pool_records.specs.RecordConstants.{doomed_stride};

use crate::records::{push_along, read_along};
use pool_records::DoomedRecord;

// Returns the k-th record from the oldest.
pub fn doomed_at(s: &[u64], cap: usize, first: usize, k: usize) -> DoomedRecord
    requires { (doomed_stride * cap ≤ length s.now) × (first < cap) × (k < cap) }
    ensures { result ≡ along doomed_stride read_doomed cap first s.now k }
{
    read_along(s, cap, first, k)
}

// Puts a version after the `n` that the ring has. Its two numbers come one by one, since most callers have them from different
// places.
pub fn push_doomed(s: &mut [u64], cap: usize, first: usize, n: usize, view: u64, bytes: u64)
    requires { (doomed_stride * cap ≤ length s.old) × (first < cap) × (n < cap) }
    ensures { s.new ≡ sets s.old (doomed_stride * place_of cap first n) (write_doomed (record { view = view; bytes = bytes })) }
{
    push_along(s, cap, first, n, DoomedRecord { view, bytes });
}
