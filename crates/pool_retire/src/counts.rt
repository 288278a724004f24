// The counts of the retiring ring.
ghost use Rattle.std.specs.Prelude.{◌≡◌, ◌≤◌, ◌<◌};
ghost use Rattle.pool_retire.specs.Counts.{ring_count, one_queued, front_popped};
ghost use Rattle.pool_rules.specs.RuleConstants.{most_places};

use pool_memory::Pool;

// Counts the versions in the ring: the hand and the queue.
pub fn ring_count(pool: Pool) -> usize
    requires { ring_count pool ≤ most_places }
    ensures { result ≡ ring_count pool }
{
    pool.popped + pool.queued
}

// Returns the counts with one more queued.
pub fn one_queued(pool: Pool) -> Pool
    requires { pool.queued ≤ most_places }
    ensures { result ≡ one_queued pool }
{
    Pool {
        queued: pool.queued + 1,
        ..pool
    }
}

// Returns the counts with the queue's front in the hand.
pub fn front_popped(pool: Pool) -> Pool
    requires { 0 < pool.queued }
    ensures { result ≡ front_popped pool }
{
    Pool {
        popped: 1,
        queued: pool.queued - 1,
        ..pool
    }
}
