// take_doomed, the call of a `doomed` line.
ghost use Rattle.std.specs.Prelude.{◌≡◌, true};
ghost use Rattle.pool_memory.specs.Lent.{lent_by, at_entry, at_exit};
ghost use Rattle.pool_memory.specs.IsPool.{is_pool};
ghost use Rattle.event_calls.specs.Calls.{MadeViews, blank};
ghost use Rattle.pool_books.specs.Lists.{between, doomed_call};

use crate::answers::answer_handed;
use crate::called::Called;
use pool_memory::{PacingBook, Pool};

// Hands back the next batch of versions to destroy.
pub fn call_take_doomed(
    pool: Pool,
    book: PacingBook,
    textures: &[u64],
    retiring: &[u64],
    doomed: &[u64],
    spares: &[u64],
    newest: &[u64],
    stamps: &[u64],
    views: &mut [u64],
) -> Called
    requires { is_pool (lent_by pool book textures.now retiring.now doomed.now spares.now newest.now stamps.now) ≡ true }
    ensures { MadeViews (at_entry pool book textures.now retiring.now doomed.now spares.now newest.now stamps.now) (between (doomed_call (blank views.old)))
        result.answer
        views.new (at_exit result.pool result.book textures.now retiring.now doomed.now spares.now newest.now stamps.now) }
{
    let said = pool_take_doomed::take_doomed(
        pool, book, textures, retiring, doomed, spares, newest, stamps, views,
    );
    Called {
        pool: said.pool,
        book: said.book,
        answer: answer_handed(said.handed),
    }
}
