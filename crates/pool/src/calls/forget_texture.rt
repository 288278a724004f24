// forget_texture, on any memory: a released texture is no longer tracked.
ghost use Rattle.std.specs.Prelude.{◌≡◌};
ghost use Rattle.pool_memory.specs.Lent.{at_entry, at_exit};
ghost use Rattle.grid_shapes.specs.Outcomes.{outcome_number};
ghost use Rattle.pool_memory.specs.Calls.{told_number, forget_texture_on};

use grid_shapes::Refusal;
use pool_formed::is_pool;
use pool_memory::{DoneAnswer, PacingBook, Pool};

// Stops tracking a released texture.
pub fn forget_texture(
    pool: Pool,
    book: PacingBook,
    textures: &mut [u64],
    retiring: &[u64],
    doomed: &mut [u64],
    spares: &mut [u64],
    newest: &mut [u64],
    stamps: &mut [u64],
    id: u64,
) -> DoneAnswer
    ensures { (told_number (outcome_number result.outcome), at_exit result.pool book textures.new retiring.now doomed.new spares.new newest.new stamps.new)
        ≡ forget_texture_on (at_entry pool book textures.old retiring.now doomed.old spares.old newest.old stamps.old) id }
{
    if !is_pool(
        pool, book, textures, retiring, doomed, spares, newest, stamps,
    ) {
        return DoneAnswer {
            pool,
            outcome: Err(Refusal::NoPool),
        };
    }
    pool_forget_texture::forget_texture(
        pool, book, textures, retiring, doomed, spares, newest, stamps, id,
    )
}
