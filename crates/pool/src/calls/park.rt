// park, on any memory: the version in the hand becomes a spare, or is queued for destruction.
ghost use Rattle.std.specs.Prelude.{◌≡◌};
ghost use Rattle.pool_memory.specs.Lent.{at_entry, at_exit};
ghost use Rattle.grid_shapes.specs.Outcomes.{outcome_number};
ghost use Rattle.pool_memory.specs.Calls.{told_number, park_on};

use grid_shapes::Refusal;
use pool_formed::is_pool;
use pool_memory::{DoneAnswer, PacingBook, Pool};

// The version in the hand becomes its texture's newest spare, or is queued for destruction.
pub fn park(
    pool: Pool,
    book: PacingBook,
    textures: &mut [u64],
    retiring: &[u64],
    doomed: &mut [u64],
    spares: &mut [u64],
    newest: &[u64],
    stamps: &[u64],
    failed: u64,
    current: u64,
) -> DoneAnswer
    ensures { (told_number (outcome_number result.outcome), at_exit result.pool book textures.new retiring.now doomed.new spares.new newest.now stamps.now)
        ≡ park_on (at_entry pool book textures.old retiring.now doomed.old spares.old newest.now stamps.now) failed current }
{
    if !is_pool(
        pool, book, textures, retiring, doomed, spares, newest, stamps,
    ) {
        return DoneAnswer {
            pool,
            outcome: Err(Refusal::NoPool),
        };
    }
    pool_park::park(
        pool, book, textures, retiring, doomed, spares, newest, stamps, failed, current,
    )
}
