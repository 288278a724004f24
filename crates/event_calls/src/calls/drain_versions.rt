// drain_versions, the call of a `drain` line.
ghost use Rattle.std.specs.Prelude.{◌≡◌, true};
ghost use Rattle.pool_memory.specs.Lent.{lent_by, at_entry, at_exit};
ghost use Rattle.pool_memory.specs.IsPool.{is_pool};
ghost use Rattle.event_calls.specs.Calls.{MadeViews, blank};
ghost use Rattle.pool_books.specs.Lists.{between, drain_call};

use crate::answers::answer_handed;
use crate::called::Called;
use pool_memory::{PacingBook, Pool};

// Hands back every version but the one in the hand.
pub fn call_drain_versions(
    pool: Pool,
    book: PacingBook,
    textures: &mut [u64],
    retiring: &[u64],
    doomed: &[u64],
    spares: &[u64],
    newest: &[u64],
    stamps: &[u64],
    views: &mut [u64],
) -> Called
    requires { is_pool (lent_by pool book textures.old retiring.now doomed.now spares.now newest.now stamps.now) ≡ true }
    ensures { MadeViews (at_entry pool book textures.old retiring.now doomed.now spares.now newest.now stamps.now) (between (drain_call (blank views.old)))
        result.answer
        views.new (at_exit result.pool result.book textures.new retiring.now doomed.now spares.now newest.now stamps.now) }
{
    let said = pool_take_doomed::drain_versions(
        pool, book, textures, retiring, doomed, spares, newest, stamps, views,
    );
    Called {
        pool: said.pool,
        book: said.book,
        answer: answer_handed(said.handed),
    }
}
