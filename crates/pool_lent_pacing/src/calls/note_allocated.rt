// note_allocated for a caller who keeps the pacing book in memory of his own.
ghost use Rattle.std.specs.Prelude.{◌≡◌};
ghost use Rattle.pool_memory.specs.Lent.{at_entry, at_exit};
ghost use Rattle.grid_shapes.specs.Outcomes.{outcome_number};
ghost use Rattle.pool_memory.specs.Calls.{told_number, note_allocated_on};

use pool_memory::{DoneAnswer, PacingBook, Pool};

// Notes how much memory the process has allocated, and gives spares back if that is too much. Puts mark and excess into the lent book, since
// parking and the next batches go by them.
pub fn note_allocated(
    pool: Pool,
    book: &mut PacingBook,
    textures: &mut [u64],
    retiring: &[u64],
    doomed: &mut [u64],
    spares: &mut [u64],
    newest: &[u64],
    stamps: &[u64],
    allocated: u64,
) -> DoneAnswer
    ensures { (told_number (outcome_number result.outcome), at_exit result.pool book.new textures.new retiring.now doomed.new spares.new newest.now stamps.now)
        ≡ note_allocated_on (at_entry pool book.old textures.old retiring.now doomed.old spares.old newest.now stamps.now) allocated }
{
    let answer = pool::note_allocated(
        pool, *book, textures, retiring, doomed, spares, newest, stamps, allocated,
    );
    *book = answer.book;
    DoneAnswer {
        pool: answer.pool,
        outcome: answer.outcome,
    }
}
