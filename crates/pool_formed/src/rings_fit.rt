// The two rings: the versions that retire, and those to be destroyed.
ghost use Rattle.std.specs.Prelude.{◌≡◌, ◌+◌, ◌*◌, ◌≤◌, ◌<◌, length};
ghost use Rattle.pool_records.specs.Retiring.{read_retiring};
ghost use Rattle.pool_records.specs.Views.{retiring_of};
ghost use Rattle.pool_memory.specs.IsPool.{is_retiring};
ghost use Rattle.pool_formed.specs.Parts.{retiring_fit, doomed_fit, rings_fit};
ghost use Rattle.pool_records.specs.RecordConstants.{doomed_stride, retiring_stride};
ghost use Rattle.pool_rules.specs.RuleConstants.{most_places};

use base_tables::ring_record;
use grid_shapes::MOST_SHAPE_BYTES;
use pool_memory::Pool;
use pool_records::{DOOMED_STRIDE, RETIRING_STRIDE, Record, RetiringRecord};
use pool_rules::LIMIT;

// A retiring version's counts and submissions are at most 2^48, its bytes at most 2^44.
fn is_retiring(p: &[u64]) -> bool
    requires { retiring_stride ≤ length p.now }
    ensures { result ≡ is_retiring (retiring_of (read_retiring p.now)) }
{
    let x = RetiringRecord::read(p);
    (x.seq <= LIMIT)
        & (x.epoch <= LIMIT)
        & (x.birth <= LIMIT)
        & (x.held <= LIMIT)
        & (x.bytes <= MOST_SHAPE_BYTES)
}

// The n versions of the retiring ring: the popped one, if there is one, and the queue.
fn retiring_fit(retiring: &[u64], cap: usize, head: usize, n: usize) -> bool
    requires { (retiring_stride * cap ≤ length retiring.now) × (head < cap) × (n ≤ cap) }
    ensures { result ≡ retiring_fit cap head n retiring.now }
{
    for i in 0..n {
        if !is_retiring(ring_record(retiring, RETIRING_STRIDE, cap, head, i)) {
            return false;
        }
    }
    true
}

// The n versions of the destroy ring, and their bytes.
fn doomed_fit(doomed: &[u64], cap: usize, first: usize, n: usize, bytes: u64) -> bool
    requires { (doomed_stride * cap ≤ length doomed.now) × (first < cap) × (n ≤ cap) × (cap ≤ most_places) }
    ensures { result ≡ doomed_fit cap first n bytes doomed.now }
{
    let mut sum = 0;
    for i in 0..n {
        let p = ring_record(doomed, DOOMED_STRIDE, cap, first, i);
        let one = p[1];
        if one > MOST_SHAPE_BYTES {
            return false;
        }
        sum += one;
    }
    bytes == sum
}

// Both rings.
pub fn rings_fit(pool: Pool, versions: usize, retiring: &[u64], doomed: &[u64]) -> bool
    requires { (retiring_stride * versions ≤ length retiring.now) × (doomed_stride * versions ≤ length doomed.now) × (versions ≤ most_places)
        × (pool.head < versions) × (pool.first < versions)
        × (pool.popped + pool.queued ≤ versions) × (pool.doomed ≤ versions) }
    ensures { result ≡ rings_fit pool versions retiring.now doomed.now }
{
    if !retiring_fit(retiring, versions, pool.head, pool.popped + pool.queued) {
        return false;
    }
    doomed_fit(doomed, versions, pool.first, pool.doomed, pool.dooming)
}
