// The pool's counts against the places that the lent slices have.
ghost use Rattle.std.specs.Prelude.{◌≡◌, ◌≤◌};
ghost use Rattle.pool_formed.specs.Parts.{places_hold};
ghost use Rattle.pool_rules.specs.RuleConstants.{most_places};

use pool_memory::Pool;

// Tests that the counts fit their places. Each is tested before it is added, so that no sum can pass a word.
pub fn counts_fit(pool: Pool, places: usize, versions: usize, grids: usize, stamps: usize) -> bool
    requires { versions ≤ most_places }
    ensures { result ≡ places_hold pool places versions grids stamps }
{
    if pool.popped > 1 {
        return false;
    }
    if pool.queued > versions {
        return false;
    }
    if pool.kept > versions {
        return false;
    }
    if pool.doomed > versions {
        return false;
    }
    (pool.tracked <= places)
        & (pool.head < versions)
        & (pool.first < versions)
        & (pool.queued + pool.popped + pool.kept + pool.doomed <= versions)
        & (pool.grids <= grids)
        & (pool.stamps <= stamps)
}
