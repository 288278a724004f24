// note_allocated, on any memory: the pressure on memory, and the spares that it costs.
ghost use Rattle.std.specs.Prelude.{◌≡◌};
ghost use Rattle.pool_memory.specs.Lent.{at_entry, at_exit};
ghost use Rattle.grid_shapes.specs.Outcomes.{outcome_number};
ghost use Rattle.pool_memory.specs.Calls.{told_number, note_allocated_on};

use grid_shapes::Refusal;
use pool_formed::is_pool;
use pool_memory::{PacingBook, Pool};
use pool_note_allocated::NotedAnswer;

// Notes how much memory the process has allocated, and gives spares back if that is too much.
pub fn note_allocated(
    pool: Pool,
    book: PacingBook,
    textures: &mut [u64],
    retiring: &[u64],
    doomed: &mut [u64],
    spares: &mut [u64],
    newest: &[u64],
    stamps: &[u64],
    allocated: u64,
) -> NotedAnswer
    ensures { (told_number (outcome_number result.outcome), at_exit result.pool result.book textures.new retiring.now doomed.new spares.new newest.now stamps.now)
        ≡ note_allocated_on (at_entry pool book textures.old retiring.now doomed.old spares.old newest.now stamps.now) allocated }
{
    if !is_pool(
        pool, book, textures, retiring, doomed, spares, newest, stamps,
    ) {
        return NotedAnswer {
            pool,
            book,
            outcome: Err(Refusal::NoPool),
        };
    }
    pool_note_allocated::note_allocated(
        pool, book, textures, retiring, doomed, spares, newest, stamps, allocated,
    )
}
