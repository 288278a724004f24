// trim, made on any memory.
use crate::answers::answer_done;
use crate::called::Called;
use pool_memory::{PacingBook, Pool};

// Gives up what was idle too long.
pub fn make_trim(
    pool: Pool,
    book: PacingBook,
    textures: &mut [u64],
    retiring: &[u64],
    doomed: &mut [u64],
    spares: &mut [u64],
    newest: &mut [u64],
    stamps: &mut [u64],
    current: u64,
) -> Called {
    let said = pool::trim(
        pool, book, textures, retiring, doomed, spares, newest, stamps, current,
    );
    let answer = answer_done(said.outcome);
    let pool = said.pool;
    Called { pool, book, answer }
}
