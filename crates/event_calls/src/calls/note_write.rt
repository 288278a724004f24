// note_write, the call of a `write` line.
ghost use Rattle.std.specs.Prelude.{◌≡◌, true};
ghost use Rattle.pool_memory.specs.Lent.{lent_by, at_entry, at_exit};
ghost use Rattle.pool_memory.specs.IsPool.{is_pool};
ghost use Rattle.event_calls.specs.Calls.{Made};
ghost use Rattle.pool_books.specs.Lists.{between, write_call};

use crate::answers::answer_done;
use crate::called::Called;
use grid_rects::TexelRect;
use pool_memory::{PacingBook, Pool};

// Notes a write to one subresource.
pub fn call_note_write(
    pool: Pool,
    book: PacingBook,
    textures: &mut [u64],
    retiring: &[u64],
    doomed: &[u64],
    spares: &[u64],
    newest: &mut [u64],
    stamps: &mut [u64],
    id: u64,
    slice: u64,
    level: u64,
    rect: TexelRect,
) -> Called
    requires { is_pool (lent_by pool book textures.old retiring.now doomed.now spares.now newest.old stamps.old) ≡ true }
    ensures { Made (at_entry pool book textures.old retiring.now doomed.now spares.now newest.old stamps.old) (between (write_call id slice level rect)) result.answer
        (at_exit result.pool result.book textures.new retiring.now doomed.now spares.now newest.new stamps.new) }
{
    let said = pool_note_write::note_write(
        pool, book, textures, retiring, doomed, spares, newest, stamps, id, slice, level, rect,
    );
    Called {
        pool: said.pool,
        book,
        answer: answer_done(said.outcome),
    }
}
