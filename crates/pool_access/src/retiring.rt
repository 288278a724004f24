// The retiring ring: `cap` places of seven numbers each, the oldest record at place `head`.
ghost use Rattle.std.specs.Prelude.{◌≡◌, ◌*◌, ◌≤◌, ◌<◌, length};
ghost use Rattle.std.proofs.lemmas.List.Edits.{sets};
ghost use Rattle.base_tables.specs.Rings.{place_of, along};
ghost use Rattle.pool_records.specs.Retiring.{read_retiring, write_retiring};
ghost use Rattle.pool_records.specs.RecordConstants.{retiring_stride};

use crate::records::{push_along, read_along};
use pool_records::RetiringRecord;

// Returns the k-th record from the oldest.
pub fn retiring_at(s: &[u64], cap: usize, head: usize, k: usize) -> RetiringRecord
    requires { (retiring_stride * cap ≤ length s.now) × (head < cap) × (k < cap) }
    ensures { result ≡ along retiring_stride read_retiring cap head s.now k }
{
    read_along(s, cap, head, k)
}

// Puts a record after the `n` that the ring has.
pub fn push_retiring(s: &mut [u64], cap: usize, head: usize, n: usize, x: RetiringRecord)
    requires { (retiring_stride * cap ≤ length s.old) × (head < cap) × (n < cap) }
    ensures { s.new ≡ sets s.old (retiring_stride * place_of cap head n) (write_retiring x) }
{
    push_along(s, cap, head, n, x);
}
