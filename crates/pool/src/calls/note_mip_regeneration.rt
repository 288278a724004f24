// note_mip_regeneration, on any memory: every level but the first was made again.
ghost use Rattle.std.specs.Prelude.{◌≡◌};
ghost use Rattle.pool_memory.specs.Lent.{at_entry, at_exit};
ghost use Rattle.grid_shapes.specs.Outcomes.{outcome_number};
ghost use Rattle.pool_memory.specs.Calls.{told_number, note_mip_regeneration_on};

use grid_shapes::Refusal;
use pool_formed::is_pool;
use pool_memory::{DoneAnswer, PacingBook, Pool};

// Notes that every level but the first was made anew.
pub fn note_mip_regeneration(
    pool: Pool,
    book: PacingBook,
    textures: &mut [u64],
    retiring: &[u64],
    doomed: &[u64],
    spares: &[u64],
    newest: &mut [u64],
    stamps: &mut [u64],
    id: u64,
) -> DoneAnswer
    ensures { (told_number (outcome_number result.outcome), at_exit result.pool book textures.new retiring.now doomed.now spares.now newest.new stamps.new)
        ≡ note_mip_regeneration_on (at_entry pool book textures.old retiring.now doomed.now spares.now newest.old stamps.old) id }
{
    if !is_pool(
        pool, book, textures, retiring, doomed, spares, newest, stamps,
    ) {
        return DoneAnswer {
            pool,
            outcome: Err(Refusal::NoPool),
        };
    }
    pool_note_write::note_mip_regeneration(
        pool, book, textures, retiring, doomed, spares, newest, stamps, id,
    )
}
