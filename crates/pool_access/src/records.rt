// Records of any type in the lent slices: in a table, one behind the other from the front, and along a ring of `cap` places, the oldest at
// place `head`.
ghost use Rattle.std.specs.Prelude.{◌≡◌, ◌+◌, ◌*◌, ◌-◌, ◌≤◌, ◌<◌, length};
ghost use Rattle.std.proofs.lemmas.List.Edits.{sets};
ghost use Rattle.base_blocks.specs.Blocks.{moved};
ghost use Rattle.base_tables.specs.Records.{record_at};
ghost use Rattle.base_tables.specs.Rings.{place_of, along};

use base_tables::{insert_record, put_record, record_at, ring_push, ring_record};
use pool_records::Record;

// Returns record i of a table.
pub fn read_at<const N: usize, R: Record<N>>(s: &[u64], i: usize) -> R
    requires { N * i + N ≤ length s.now }
    ensures { result ≡ record_at N R.read_from s.now i }
{
    R::read(record_at(s, N, i))
}

// Writes record i of a table over.
pub fn put_at<const N: usize, R: Record<N>>(s: &mut [u64], i: usize, x: R)
    requires { (N * i + N ≤ length s.old) × R.fits x }
    ensures { s.new ≡ sets s.old (N * i) (R.written x) }
{
    put_record(s, N, i, &x.numbers());
}

// Puts a record in before record i of the n of a table. Those from i on move up.
pub fn insert_at<const N: usize, R: Record<N>>(s: &mut [u64], n: usize, i: usize, x: R)
    requires { (N * n + N ≤ length s.old) × (i ≤ n) × R.fits x }
    ensures { s.new ≡ sets (moved s.old (N * i + N) (N * i) (N * (n - i))) (N * i) (R.written x) }
{
    insert_record(s, N, n, i, &x.numbers());
}

// Returns the k-th record from the oldest of a ring.
pub fn read_along<const N: usize, R: Record<N>>(s: &[u64], cap: usize, head: usize, k: usize) -> R
    requires { (N * cap ≤ length s.now) × (head < cap) × (k < cap) }
    ensures { result ≡ along N R.read_from cap head s.now k }
{
    R::read(ring_record(s, N, cap, head, k))
}

// Puts a record after the n that a ring has.
pub fn push_along<const N: usize, R: Record<N>>(
    s: &mut [u64],
    cap: usize,
    head: usize,
    n: usize,
    x: R,
)
    requires { (N * cap ≤ length s.old) × (head < cap) × (n < cap) × R.fits x }
    ensures { s.new ≡ sets s.old (N * place_of cap head n) (R.written x) }
{
    ring_push(s, N, cap, head, n, &x.numbers());
}
