// retire, the call of a `retire` line.
ghost use Rattle.std.specs.Prelude.{◌≡◌, true};
ghost use Rattle.pool_memory.specs.Lent.{lent_by, at_entry, at_exit};
ghost use Rattle.pool_memory.specs.IsPool.{is_pool};
ghost use Rattle.event_calls.specs.Calls.{Made};
ghost use Rattle.pool_books.specs.Lists.{retire_call};

use crate::answers::answer_done;
use crate::called::Called;
use pool_memory::{PacingBook, Pool};

// Queues the version that a rename just replaced.
pub fn call_retire(
    pool: Pool,
    book: PacingBook,
    textures: &mut [u64],
    retiring: &mut [u64],
    doomed: &[u64],
    spares: &[u64],
    newest: &[u64],
    stamps: &[u64],
    id: u64,
    view: u64,
    seq: u64,
) -> Called
    requires { is_pool (lent_by pool book textures.old retiring.old doomed.now spares.now newest.now stamps.now) ≡ true }
    ensures { Made (at_entry pool book textures.old retiring.old doomed.now spares.now newest.now stamps.now) (retire_call id view seq) result.answer
        (at_exit result.pool result.book textures.new retiring.new doomed.now spares.now newest.now stamps.now) }
{
    let said = pool_retire::retire(
        pool, book, textures, retiring, doomed, spares, newest, stamps, id, view, seq,
    );
    Called {
        pool: said.pool,
        book,
        answer: answer_done(said.outcome),
    }
}
