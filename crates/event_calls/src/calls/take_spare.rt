// take_spare, the call of a `take` line.
ghost use Rattle.std.specs.Prelude.{◌≡◌, true};
ghost use Rattle.pool_memory.specs.Lent.{lent_by, at_entry, at_exit};
ghost use Rattle.pool_memory.specs.IsPool.{is_pool};
ghost use Rattle.event_calls.specs.Calls.{Made};
ghost use Rattle.pool_books.specs.Lists.{take_call};

use crate::answers::answer_taken;
use crate::called::Called;
use grid_shapes::VersionShape;
use pool_memory::{PacingBook, Pool};

// Starts a rename.
pub fn call_take_spare(
    pool: Pool,
    book: PacingBook,
    textures: &mut [u64],
    retiring: &[u64],
    doomed: &mut [u64],
    spares: &mut [u64],
    newest: &mut [u64],
    stamps: &mut [u64],
    id: u64,
    shape: VersionShape,
    records: bool,
    seq: u64,
) -> Called
    requires { is_pool (lent_by pool book textures.old retiring.now doomed.old spares.old newest.old stamps.old) ≡ true }
    ensures { Made (at_entry pool book textures.old retiring.now doomed.old spares.old newest.old stamps.old) (take_call id shape records seq) result.answer
        (at_exit result.pool result.book textures.new retiring.now doomed.new spares.new newest.new stamps.new) }
{
    let said = pool_take_spare::take_spare(
        pool, book, textures, retiring, doomed, spares, newest, stamps, id, shape, records, seq,
    );
    Called {
        pool: said.pool,
        book,
        answer: answer_taken(said.taken),
    }
}
