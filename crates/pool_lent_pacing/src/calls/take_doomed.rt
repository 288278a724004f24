// take_doomed for a caller who keeps the pacing book in memory of his own.
ghost use Rattle.std.specs.Prelude.{◌≡◌};
ghost use Rattle.pool_memory.specs.Lent.{at_entry, at_exit};
ghost use Rattle.pool_memory.specs.Calls.{take_doomed_on};
ghost use Rattle.pool_take_doomed.specs.Answer.{handed_told};

use crate::answer::HandedAnswer;
use pool_memory::{PacingBook, Pool};

// Hands back the next batch of versions to destroy, and notes in the lent book what came since the last one, by which the next is measured.
pub fn take_doomed(
    pool: Pool,
    book: &mut PacingBook,
    textures: &[u64],
    retiring: &[u64],
    doomed: &[u64],
    spares: &[u64],
    newest: &[u64],
    stamps: &[u64],
    buffer: &mut [u64],
) -> HandedAnswer
    ensures { (handed_told result.handed, (buffer.new, at_exit result.pool book.new textures.now retiring.now doomed.now spares.now newest.now stamps.now))
        ≡ take_doomed_on (at_entry pool book.old textures.now retiring.now doomed.now spares.now newest.now stamps.now) buffer.old }
{
    let answer = pool::take_doomed(
        pool, *book, textures, retiring, doomed, spares, newest, stamps, buffer,
    );
    *book = answer.book;
    HandedAnswer {
        pool: answer.pool,
        handed: answer.handed,
    }
}
