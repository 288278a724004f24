// pop_retired, on any memory: the queue's front, if its submission is settled.
ghost use Rattle.std.specs.Prelude.{◌≡◌};
ghost use Rattle.pool_memory.specs.Lent.{at_entry, at_exit};
ghost use Rattle.pool_memory.specs.Calls.{pop_retired_on};
ghost use Rattle.pool_retire.specs.Answers.{popped_told};

use grid_shapes::Refusal;
use pool_formed::is_pool;
use pool_memory::{PacingBook, Pool};
use pool_retire::PopAnswer;

// Puts the queue's front in the hand if its submission is settled.
pub fn pop_retired(
    pool: Pool,
    book: PacingBook,
    textures: &[u64],
    retiring: &[u64],
    doomed: &[u64],
    spares: &[u64],
    newest: &[u64],
    stamps: &[u64],
    settled: u64,
) -> PopAnswer
    ensures { (popped_told result.popped, at_exit result.pool book textures.now retiring.now doomed.now spares.now newest.now stamps.now)
        ≡ pop_retired_on (at_entry pool book textures.now retiring.now doomed.now spares.now newest.now stamps.now) settled }
{
    if !is_pool(
        pool, book, textures, retiring, doomed, spares, newest, stamps,
    ) {
        return PopAnswer {
            pool,
            popped: Err(Refusal::NoPool),
        };
    }
    pool_retire::pop_retired(
        pool, book, textures, retiring, doomed, spares, newest, stamps, settled,
    )
}
