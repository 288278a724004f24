// take_spare, on any memory: a rename begins, with the texture's newest spare if it has one.
ghost use Rattle.std.specs.Prelude.{◌≡◌};
ghost use Rattle.pool_memory.specs.Lent.{at_entry, at_exit};
ghost use Rattle.pool_memory.specs.Calls.{take_spare_on};
ghost use Rattle.pool_take_spare.specs.Answer.{taken_told};

use grid_shapes::{Refusal, VersionShape};
use pool_formed::is_pool;
use pool_memory::{PacingBook, Pool};
use pool_take_spare::TakeAnswer;

// Starts a rename: the texture's newest spare, if it has one.
pub fn take_spare(
    pool: Pool,
    book: PacingBook,
    textures: &mut [u64],
    retiring: &[u64],
    doomed: &mut [u64],
    spares: &mut [u64],
    newest: &mut [u64],
    stamps: &mut [u64],
    id: u64,
    shape: VersionShape,
    records: bool,
    seq: u64,
) -> TakeAnswer
    ensures { (taken_told result.taken, at_exit result.pool book textures.new retiring.now doomed.new spares.new newest.new stamps.new)
        ≡ take_spare_on (at_entry pool book textures.old retiring.now doomed.old spares.old newest.old stamps.old) id shape records seq }
{
    if !is_pool(
        pool, book, textures, retiring, doomed, spares, newest, stamps,
    ) {
        return TakeAnswer {
            pool,
            taken: Err(Refusal::NoPool),
        };
    }
    pool_take_spare::take_spare(
        pool, book, textures, retiring, doomed, spares, newest, stamps, id, shape, records, seq,
    )
}
