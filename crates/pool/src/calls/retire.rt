// retire, on any memory: the version that a rename replaced is queued.
ghost use Rattle.std.specs.Prelude.{◌≡◌};
ghost use Rattle.pool_memory.specs.Lent.{at_entry, at_exit};
ghost use Rattle.grid_shapes.specs.Outcomes.{outcome_number};
ghost use Rattle.pool_memory.specs.Calls.{told_number, retire_on};

use grid_shapes::Refusal;
use pool_formed::is_pool;
use pool_memory::{DoneAnswer, PacingBook, Pool};

// Queues the version that a rename just replaced.
pub fn retire(
    pool: Pool,
    book: PacingBook,
    textures: &mut [u64],
    retiring: &mut [u64],
    doomed: &[u64],
    spares: &[u64],
    newest: &[u64],
    stamps: &[u64],
    id: u64,
    view: u64,
    seq: u64,
) -> DoneAnswer
    ensures { (told_number (outcome_number result.outcome), at_exit result.pool book textures.new retiring.new doomed.now spares.now newest.now stamps.now)
        ≡ retire_on (at_entry pool book textures.old retiring.old doomed.now spares.now newest.now stamps.now) id view seq }
{
    if !is_pool(
        pool, book, textures, retiring, doomed, spares, newest, stamps,
    ) {
        return DoneAnswer {
            pool,
            outcome: Err(Refusal::NoPool),
        };
    }
    pool_retire::retire(
        pool, book, textures, retiring, doomed, spares, newest, stamps, id, view, seq,
    )
}
