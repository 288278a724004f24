// trim, on any memory: spares that were idle too long are queued for destruction, and idle textures are forgotten.
ghost use Rattle.std.specs.Prelude.{◌≡◌};
ghost use Rattle.pool_memory.specs.Lent.{at_entry, at_exit};
ghost use Rattle.grid_shapes.specs.Outcomes.{outcome_number};
ghost use Rattle.pool_memory.specs.Calls.{told_number, trim_on};

use grid_shapes::Refusal;
use pool_formed::is_pool;
use pool_memory::{DoneAnswer, PacingBook, Pool};

// Queues for destruction every spare that was idle too long, and forgets idle textures.
pub fn trim(
    pool: Pool,
    book: PacingBook,
    textures: &mut [u64],
    retiring: &[u64],
    doomed: &mut [u64],
    spares: &mut [u64],
    newest: &mut [u64],
    stamps: &mut [u64],
    current: u64,
) -> DoneAnswer
    ensures { (told_number (outcome_number result.outcome), at_exit result.pool book textures.new retiring.now doomed.new spares.new newest.new stamps.new)
        ≡ trim_on (at_entry pool book textures.old retiring.now doomed.old spares.old newest.old stamps.old) current }
{
    if !is_pool(
        pool, book, textures, retiring, doomed, spares, newest, stamps,
    ) {
        return DoneAnswer {
            pool,
            outcome: Err(Refusal::NoPool),
        };
    }
    pool_trim::trim(
        pool, book, textures, retiring, doomed, spares, newest, stamps, current,
    )
}
