// Records of w numbers each, one after the other from the front of a lent slice. A record is handed over as a part of the
// slice, so that one function serves every type of record.
ghost use Rattle.std.specs.Prelude.{◌≡◌, ◌+◌, ◌*◌, ◌-◌, ◌≤◌, length, take, drop};
ghost use Rattle.std.proofs.lemmas.List.Edits.{sets};
ghost use Rattle.base_blocks.specs.Blocks.{moved};

use base_blocks::{copy_in, shift_down, shift_up};

// Returns record i. Its length stands in the contract too, for the indexes of those who read it.
pub fn record_at(s: &[u64], w: usize, i: usize) -> &[u64]
    requires { w * i + w ≤ length s.now }
    ensures { (length result.now ≡ w) × (result.now ≡ take w (drop (w * i) s.now)) }
{
    let at = w * i;
    let end = at + w;
    &s[at..end]
}

// Writes record i.
pub fn put_record(s: &mut [u64], w: usize, i: usize, r: &[u64])
    requires { w * i + length r.now ≤ length s.old }
    ensures { s.new ≡ sets s.old (w * i) r.now }
{
    copy_in(s, w * i, r);
}

// Puts one more record before record i of n: the later ones move up by one, so that the order stays.
pub fn insert_record(s: &mut [u64], w: usize, n: usize, i: usize, r: &[u64])
    requires { (w * n + w ≤ length s.old) × (i ≤ n) × (length r.now ≡ w) }
    ensures { s.new ≡ sets (moved s.old (w * i + w) (w * i) (w * (n - i))) (w * i) r.now }
{
    let at = w * i;
    let later = w * (n - i);
    shift_up(s, at, w, later);
    copy_in(s, at, r);
}

// Takes out the k records from record i on, of n: the later ones move down, so that no gap is left.
pub fn remove_records(s: &mut [u64], w: usize, n: usize, i: usize, k: usize)
    requires { (w * n ≤ length s.old) × (i + k ≤ n) }
    ensures { s.new ≡ moved s.old (w * i) (w * i + w * k) (w * (n - (i + k))) }
{
    let at = w * i;
    let gap = w * k;
    let later = w * (n - (i + k));
    shift_down(s, at, gap, later);
}
