// note_mip_regeneration, the call of a `regen` line.
ghost use Rattle.std.specs.Prelude.{◌≡◌, true};
ghost use Rattle.pool_memory.specs.Lent.{lent_by, at_entry, at_exit};
ghost use Rattle.pool_memory.specs.IsPool.{is_pool};
ghost use Rattle.event_calls.specs.Calls.{Made};
ghost use Rattle.pool_books.specs.Lists.{between, regen_call};

use crate::answers::answer_done;
use crate::called::Called;
use pool_memory::{PacingBook, Pool};

// Notes that every level but the first was made again.
pub fn call_note_mip_regeneration(
    pool: Pool,
    book: PacingBook,
    textures: &mut [u64],
    retiring: &[u64],
    doomed: &[u64],
    spares: &[u64],
    newest: &mut [u64],
    stamps: &mut [u64],
    id: u64,
) -> Called
    requires { is_pool (lent_by pool book textures.old retiring.now doomed.now spares.now newest.old stamps.old) ≡ true }
    ensures { Made (at_entry pool book textures.old retiring.now doomed.now spares.now newest.old stamps.old) (between (regen_call id)) result.answer
        (at_exit result.pool result.book textures.new retiring.now doomed.now spares.now newest.new stamps.new) }
{
    let said = pool_note_write::note_mip_regeneration(
        pool, book, textures, retiring, doomed, spares, newest, stamps, id,
    );
    Called {
        pool: said.pool,
        book,
        answer: answer_done(said.outcome),
    }
}
