// park, the call of a `park` line.
ghost use Rattle.std.specs.Prelude.{◌≡◌, true};
ghost use Rattle.pool_memory.specs.Lent.{lent_by, at_entry, at_exit};
ghost use Rattle.pool_memory.specs.IsPool.{is_pool};
ghost use Rattle.event_calls.specs.Calls.{Made};
ghost use Rattle.pool_books.specs.Lists.{between, park_call};

use crate::answers::answer_done;
use crate::called::Called;
use pool_memory::{PacingBook, Pool};

// Parks the version in the hand, or queues it for destruction.
pub fn call_park(
    pool: Pool,
    book: PacingBook,
    textures: &mut [u64],
    retiring: &[u64],
    doomed: &mut [u64],
    spares: &mut [u64],
    newest: &[u64],
    stamps: &[u64],
    failed: u64,
    current: u64,
) -> Called
    requires { is_pool (lent_by pool book textures.old retiring.now doomed.old spares.old newest.now stamps.now) ≡ true }
    ensures { Made (at_entry pool book textures.old retiring.now doomed.old spares.old newest.now stamps.now) (between (park_call failed current)) result.answer
        (at_exit result.pool result.book textures.new retiring.now doomed.new spares.new newest.now stamps.now) }
{
    let said = pool_park::park(
        pool, book, textures, retiring, doomed, spares, newest, stamps, failed, current,
    );
    Called {
        pool: said.pool,
        book,
        answer: answer_done(said.outcome),
    }
}
