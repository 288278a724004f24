// note_allocated, the call of a `note` line.
ghost use Rattle.std.specs.Prelude.{◌≡◌, true};
ghost use Rattle.pool_memory.specs.Lent.{lent_by, at_entry, at_exit};
ghost use Rattle.pool_memory.specs.IsPool.{is_pool};
ghost use Rattle.event_calls.specs.Calls.{Made};
ghost use Rattle.pool_books.specs.Lists.{between, note_call};

use crate::answers::answer_done;
use crate::called::Called;
use pool_memory::{PacingBook, Pool};

// Notes how much memory the process has allocated.
pub fn call_note_allocated(
    pool: Pool,
    book: PacingBook,
    textures: &mut [u64],
    retiring: &[u64],
    doomed: &mut [u64],
    spares: &mut [u64],
    newest: &[u64],
    stamps: &[u64],
    allocated: u64,
) -> Called
    requires { is_pool (lent_by pool book textures.old retiring.now doomed.old spares.old newest.now stamps.now) ≡ true }
    ensures { Made (at_entry pool book textures.old retiring.now doomed.old spares.old newest.now stamps.now) (between (note_call allocated)) result.answer
        (at_exit result.pool result.book textures.new retiring.now doomed.new spares.new newest.now stamps.now) }
{
    let said = pool_note_allocated::note_allocated(
        pool, book, textures, retiring, doomed, spares, newest, stamps, allocated,
    );
    Called {
        pool: said.pool,
        book: said.book,
        answer: answer_done(said.outcome),
    }
}
