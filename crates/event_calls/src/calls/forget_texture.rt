// forget_texture, the call of a `forget` line.
ghost use Rattle.std.specs.Prelude.{◌≡◌, true};
ghost use Rattle.pool_memory.specs.Lent.{lent_by, at_entry, at_exit};
ghost use Rattle.pool_memory.specs.IsPool.{is_pool};
ghost use Rattle.event_calls.specs.Calls.{Made};
ghost use Rattle.pool_books.specs.Lists.{between, forget_call};

use crate::answers::answer_done;
use crate::called::Called;
use pool_memory::{PacingBook, Pool};

// Stops tracking a released texture.
pub fn call_forget_texture(
    pool: Pool,
    book: PacingBook,
    textures: &mut [u64],
    retiring: &[u64],
    doomed: &mut [u64],
    spares: &mut [u64],
    newest: &mut [u64],
    stamps: &mut [u64],
    id: u64,
) -> Called
    requires { is_pool (lent_by pool book textures.old retiring.now doomed.old spares.old newest.old stamps.old) ≡ true }
    ensures { Made (at_entry pool book textures.old retiring.now doomed.old spares.old newest.old stamps.old) (between (forget_call id)) result.answer
        (at_exit result.pool result.book textures.new retiring.now doomed.new spares.new newest.new stamps.new) }
{
    let said = pool_forget_texture::forget_texture(
        pool, book, textures, retiring, doomed, spares, newest, stamps, id,
    );
    Called {
        pool: said.pool,
        book,
        answer: answer_done(said.outcome),
    }
}
