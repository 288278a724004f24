// A ring of records of w numbers each: cap places in one lent slice, the first record at place head, wrapping at the end. A queue kept so never
// moves its records. There is no `%` and no sum that could wrap, so that nothing bounds cap but the slice.
ghost use Rattle.std.specs.Prelude.{◌≡◌, ◌*◌, ◌≤◌, ◌<◌, length, take, drop};
ghost use Rattle.std.proofs.lemmas.List.Edits.{sets};
ghost use Rattle.base_tables.specs.Rings.{place_of};

use crate::table::{put_record, record_at};

// Returns the place of the i-th record.
pub fn place(cap: usize, head: usize, i: usize) -> usize
    requires { (head < cap) × (i ≤ cap) }
    ensures { (result < cap) × (result ≡ place_of cap head i) }
{
    let near = cap - head;
    if i < near {
        return head + i;
    }
    i - near
}

// Returns the i-th record.
pub fn ring_record(s: &[u64], w: usize, cap: usize, head: usize, i: usize) -> &[u64]
    requires { (w * cap ≤ length s.now) × (head < cap) × (i ≤ cap) }
    ensures { (length result.now ≡ w) × (result.now ≡ take w (drop (w * place_of cap head i) s.now)) }
{
    let p = place(cap, head, i);
    record_at(s, w, p)
}

// Puts a record after the n of the ring.
pub fn ring_push(s: &mut [u64], w: usize, cap: usize, head: usize, n: usize, r: &[u64])
    requires { (w * cap ≤ length s.old) × (head < cap) × (n < cap) × (length r.now ≡ w) }
    ensures { s.new ≡ sets s.old (w * place_of cap head n) r.now }
{
    let p = place(cap, head, n);
    put_record(s, w, p, r);
}

// Returns where the head is once the first k records are dropped. That is a `place`, but docs/CONTRACTS.md names both, and a caller that drops records reads as one.
pub fn ring_drop(cap: usize, head: usize, k: usize) -> usize
    requires { (head < cap) × (k ≤ cap) }
    ensures { (result < cap) × (result ≡ place_of cap head k) }
{
    place(cap, head, k)
}
