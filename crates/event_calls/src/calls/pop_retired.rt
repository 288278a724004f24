// pop_retired, the call of a `pop` line.
ghost use Rattle.std.specs.Prelude.{◌≡◌, true};
ghost use Rattle.pool_memory.specs.Lent.{lent_by, at_entry, at_exit};
ghost use Rattle.pool_memory.specs.IsPool.{is_pool};
ghost use Rattle.event_calls.specs.Calls.{Made};
ghost use Rattle.pool_books.specs.Lists.{between, pop_call};

use crate::answers::answer_popped;
use crate::called::Called;
use pool_memory::{PacingBook, Pool};

// Puts the queue's front in the hand if its submission is settled.
pub fn call_pop_retired(
    pool: Pool,
    book: PacingBook,
    textures: &[u64],
    retiring: &[u64],
    doomed: &[u64],
    spares: &[u64],
    newest: &[u64],
    stamps: &[u64],
    settled: u64,
) -> Called
    requires { is_pool (lent_by pool book textures.now retiring.now doomed.now spares.now newest.now stamps.now) ≡ true }
    ensures { Made (at_entry pool book textures.now retiring.now doomed.now spares.now newest.now stamps.now) (between (pop_call settled)) result.answer
        (at_exit result.pool result.book textures.now retiring.now doomed.now spares.now newest.now stamps.now) }
{
    let said = pool_retire::pop_retired(
        pool, book, textures, retiring, doomed, spares, newest, stamps, settled,
    );
    Called {
        pool: said.pool,
        book,
        answer: answer_popped(said.popped),
    }
}
