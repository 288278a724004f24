// drain_versions for a caller who keeps the pacing book in memory of his own.
ghost use Rattle.std.specs.Prelude.{◌≡◌};
ghost use Rattle.pool_memory.specs.Lent.{at_entry, at_exit};
ghost use Rattle.pool_memory.specs.Calls.{drain_versions_on};
ghost use Rattle.pool_take_doomed.specs.Answer.{handed_told};

use crate::answer::HandedAnswer;
use pool_memory::{PacingBook, Pool};

// Hands back every version but the one in the hand, and clears the arrivals in the lent book: the versions that they counted are gone.
pub fn drain_versions(
    pool: Pool,
    book: &mut PacingBook,
    textures: &mut [u64],
    retiring: &[u64],
    doomed: &[u64],
    spares: &[u64],
    newest: &[u64],
    stamps: &[u64],
    buffer: &mut [u64],
) -> HandedAnswer
    ensures { (handed_told result.handed, (buffer.new, at_exit result.pool book.new textures.new retiring.now doomed.now spares.now newest.now stamps.now))
        ≡ drain_versions_on (at_entry pool book.old textures.old retiring.now doomed.now spares.now newest.now stamps.now) buffer.old }
{
    let answer = pool::drain_versions(
        pool, *book, textures, retiring, doomed, spares, newest, stamps, buffer,
    );
    *book = answer.book;
    HandedAnswer {
        pool: answer.pool,
        handed: answer.handed,
    }
}
