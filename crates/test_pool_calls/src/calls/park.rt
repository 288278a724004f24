// park, made on any memory.
use crate::answers::answer_done;
use crate::called::Called;
use pool_memory::{PacingBook, Pool};

// Parks the version in the hand, or queues it for destruction.
pub fn make_park(
    pool: Pool,
    book: PacingBook,
    textures: &mut [u64],
    retiring: &[u64],
    doomed: &mut [u64],
    spares: &mut [u64],
    newest: &[u64],
    stamps: &[u64],
    failed: u64,
    current: u64,
) -> Called {
    let said = pool::park(
        pool, book, textures, retiring, doomed, spares, newest, stamps, failed, current,
    );
    let answer = answer_done(said.outcome);
    let pool = said.pool;
    Called { pool, book, answer }
}
