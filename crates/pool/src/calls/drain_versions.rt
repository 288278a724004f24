// drain_versions, on any memory: every version but the one in the hand.
ghost use Rattle.std.specs.Prelude.{◌≡◌};
ghost use Rattle.pool_memory.specs.Lent.{at_entry, at_exit};
ghost use Rattle.pool_memory.specs.Calls.{drain_versions_on};
ghost use Rattle.pool_take_doomed.specs.Answer.{handed_told};

use grid_shapes::Refusal;
use pool_formed::is_pool;
use pool_memory::{PacingBook, Pool};
use pool_take_doomed::DrainAnswer;

// Hands back every version but the one in the hand.
pub fn drain_versions(
    pool: Pool,
    book: PacingBook,
    textures: &mut [u64],
    retiring: &[u64],
    doomed: &[u64],
    spares: &[u64],
    newest: &[u64],
    stamps: &[u64],
    buffer: &mut [u64],
) -> DrainAnswer
    ensures { (handed_told result.handed, (buffer.new, at_exit result.pool result.book textures.new retiring.now doomed.now spares.now newest.now stamps.now))
        ≡ drain_versions_on (at_entry pool book textures.old retiring.now doomed.now spares.now newest.now stamps.now) buffer.old }
{
    if !is_pool(
        pool, book, textures, retiring, doomed, spares, newest, stamps,
    ) {
        return DrainAnswer {
            pool,
            book,
            handed: Err(Refusal::NoPool),
        };
    }
    pool_take_doomed::drain_versions(
        pool, book, textures, retiring, doomed, spares, newest, stamps, buffer,
    )
}
