// The pool's counts after parking. The ring begins at `head` then, without the hand.
ghost use Rattle.std.specs.Prelude.{◌≡◌, ◌+◌, ◌≤◌, ◌<◌, ◌^◌};
ghost use Rattle.pool_park.specs.Counts.{hand_kept, hand_doomed};
ghost use Rattle.pool_rules.specs.RuleConstants.{most_places};

use pool_memory::Pool;

// Returns the counts with the hand's version kept as a spare.
pub fn hand_kept(pool: Pool, head: usize, bytes: u64) -> Pool
    requires { (pool.kept ≤ most_places) × (pool.parked + bytes ≤ pool.cap) }
    ensures { result ≡ hand_kept head bytes pool }
{
    Pool {
        kept: pool.kept + 1,
        head,
        popped: 0,
        parked: pool.parked + bytes,
        ..pool
    }
}

// Returns the counts with the hand's version queued for destruction.
pub fn hand_doomed(pool: Pool, head: usize, bytes: u64) -> Pool
    requires { (pool.doomed ≤ most_places) × (pool.since ≤ most_places) × (pool.dooming + bytes < 2 ^ 64) }
    ensures { result ≡ hand_doomed head bytes pool }
{
    Pool {
        head,
        popped: 0,
        doomed: pool.doomed + 1,
        since: pool.since + 1,
        dooming: pool.dooming + bytes,
        ..pool
    }
}
