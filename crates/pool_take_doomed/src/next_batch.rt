// How many versions the next take hands back: the average number queued per take over the last eight takes plus an eighth of the
// queue, at least 64, then as many more as cover the excess. A steady stream is handed out at the rate at which it arrives, and
// what queued while the average caught up shrinks with every take, so that no queue persists; a burst raises the average for a few
// takes and is spread over them.
ghost use Rattle.std.specs.Prelude.{◌≡◌, ℕ, ◌*◌, ◌^◌, ◌≤◌, ◌<◌, length, set};
ghost use Rattle.base_blocks.specs.Lists.{total};
ghost use Rattle.pool_rules.specs.Model.{doomed_bytes};
ghost use Rattle.pool_take_doomed.specs.NextBatch.{doomed_entries, most_arrivals, paced_of, batch_of};
ghost use Rattle.pool_records.specs.RecordConstants.{doomed_stride};
ghost use Rattle.pool_rules.specs.RuleConstants.{destroy_spread_drains, most_places};

use base_tables::place;
use pool_memory::PacingBook;
use pool_records::{DOOMED_BYTES_AT, DOOMED_STRIDE};
use pool_rules::{DESTROY_SPREAD_DRAINS, MIN_DESTROYS_PER_DRAIN};

// DESTROY_SPREAD_DRAINS as the divisor of a number of versions.
const DRAINS: u64 = DESTROY_SPREAD_DRAINS as u64;

// Added before a division by DRAINS, so that it rounds up.
const ROUND_UP: u64 = DRAINS - 1;

// How many versions, and their bytes.
#[derive(Clone, Copy)]
pub struct Batch {
    pub count: usize,
    pub bytes: u64,
}

// Returns the arrivals with those since the last take in their slot.
pub fn arrived(book: PacingBook, since: u64) -> [u64; DESTROY_SPREAD_DRAINS]
    requires { book.slot < destroy_spread_drains }
    ensures { result ≡ set book.arrivals book.slot since }
{
    let slot = book.slot;
    let mut arrivals = book.arrivals;
    arrivals[slot] = since;
    arrivals
}

// Adds up the arrivals of the last takes.
fn arrivals_sum(a: [u64; DESTROY_SPREAD_DRAINS]) -> u64
    requires { total (λ (n : ℕ). n) a ≤ most_arrivals }
    ensures { result ≡ total (λ (n : ℕ). n) a }
{
    a.iter().sum()
}

// Returns the batch for a queue of n, before the excess is looked at.
fn paced(a: [u64; DESTROY_SPREAD_DRAINS], n: u64) -> u64
    requires { (total (λ (n : ℕ). n) a ≤ most_arrivals) × (n ≤ most_places) }
    ensures { result ≡ paced_of a n }
{
    let sum = arrivals_sum(a);
    let share = (sum + ROUND_UP) / DRAINS + (n + ROUND_UP) / DRAINS;
    MIN_DESTROYS_PER_DRAIN.max(share).min(n)
}

// Adds up the bytes of the first k versions of the ring.
fn bytes_of(doomed: &[u64], cap: usize, first: usize, k: usize) -> u64
    requires { (doomed_stride * cap ≤ length doomed.now) × (first < cap) × (k ≤ cap)
        × (doomed_bytes (doomed_entries cap first doomed.now k) < 2 ^ 64) }
    ensures { result ≡ doomed_bytes (doomed_entries cap first doomed.now k) }
{
    let mut sum = 0;
    for i in 0..k {
        let p = place(cap, first, i);
        sum += doomed[DOOMED_STRIDE * p + DOOMED_BYTES_AT];
    }
    sum
}

// Returns the batch of the first `least` of the n versions of the ring, and of as many more as it takes until their bytes cover the
// excess: memory pressure is relieved in one drain rather than spread like a burst.
fn covering(doomed: &[u64], cap: usize, first: usize, n: usize, least: usize, excess: u64) -> Batch
    requires { (doomed_stride * cap ≤ length doomed.now) × (first < cap) × (n ≤ cap) × (least ≤ n)
        × (doomed_bytes (doomed_entries cap first doomed.now n) < 2 ^ 64) }
    ensures { (result.count ≡ batch_of least excess (doomed_entries cap first doomed.now n)) × (result.count ≤ n)
        × (result.bytes ≡ doomed_bytes (doomed_entries cap first doomed.now result.count)) }
{
    let mut bytes = bytes_of(doomed, cap, first, least);
    for count in least..n {
        if excess <= bytes {
            return Batch { count, bytes };
        }
        let p = place(cap, first, count);
        bytes += doomed[DOOMED_STRIDE * p + DOOMED_BYTES_AT];
    }
    Batch { count: n, bytes }
}

// Returns the next batch of the n versions of the ring.
pub fn next_batch(
    doomed: &[u64],
    cap: usize,
    first: usize,
    n: usize,
    arrivals: [u64; DESTROY_SPREAD_DRAINS],
    excess: u64,
) -> Batch
    requires { (doomed_stride * cap ≤ length doomed.now) × (first < cap) × (n ≤ cap) × (cap ≤ most_places) × (total (λ (n : ℕ). n) arrivals ≤ most_arrivals)
        × (doomed_bytes (doomed_entries cap first doomed.now n) < 2 ^ 64) }
    ensures { (result.count ≡ batch_of (paced_of arrivals n) excess (doomed_entries cap first doomed.now n)) × (result.count ≤ n)
        × (result.bytes ≡ doomed_bytes (doomed_entries cap first doomed.now result.count)) }
{
    let least = paced(arrivals, n as u64) as usize;
    covering(doomed, cap, first, n, least, excess)
}
