// pop_retired, made on any memory.
use crate::answers::answer_popped;
use crate::called::Called;
use pool_memory::{PacingBook, Pool};

// Puts the queue's front in the hand if its submission is settled.
pub fn make_pop_retired(
    pool: Pool,
    book: PacingBook,
    textures: &[u64],
    retiring: &[u64],
    doomed: &[u64],
    spares: &[u64],
    newest: &[u64],
    stamps: &[u64],
    settled: u64,
) -> Called {
    let said = pool::pop_retired(
        pool, book, textures, retiring, doomed, spares, newest, stamps, settled,
    );
    let popped = said.popped;
    let answer = answer_popped(popped);
    let pool = said.pool;
    Called { pool, book, answer }
}
