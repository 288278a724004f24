// note_write, on any memory: a write to one subresource.
ghost use Rattle.std.specs.Prelude.{◌≡◌};
ghost use Rattle.pool_memory.specs.Lent.{at_entry, at_exit};
ghost use Rattle.grid_shapes.specs.Outcomes.{outcome_number};
ghost use Rattle.pool_memory.specs.Calls.{told_number, note_write_on};

use grid_rects::TexelRect;
use grid_shapes::Refusal;
use pool_formed::is_pool;
use pool_memory::{DoneAnswer, PacingBook, Pool};

// Notes a write to one subresource.
pub fn note_write(
    pool: Pool,
    book: PacingBook,
    textures: &mut [u64],
    retiring: &[u64],
    doomed: &[u64],
    spares: &[u64],
    newest: &mut [u64],
    stamps: &mut [u64],
    id: u64,
    slice: u64,
    level: u64,
    rect: TexelRect,
) -> DoneAnswer
    ensures { (told_number (outcome_number result.outcome), at_exit result.pool book textures.new retiring.now doomed.now spares.now newest.new stamps.new)
        ≡ note_write_on (at_entry pool book textures.old retiring.now doomed.now spares.now newest.old stamps.old) id slice level rect }
{
    if !is_pool(
        pool, book, textures, retiring, doomed, spares, newest, stamps,
    ) {
        return DoneAnswer {
            pool,
            outcome: Err(Refusal::NoPool),
        };
    }
    pool_note_write::note_write(
        pool, book, textures, retiring, doomed, spares, newest, stamps, id, slice, level, rect,
    )
}
