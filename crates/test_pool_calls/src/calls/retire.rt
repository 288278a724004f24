// retire, made on any memory.
use crate::answers::answer_done;
use crate::called::Called;
use pool_memory::{PacingBook, Pool};

// Queues the version that a rename just replaced.
pub fn make_retire(
    pool: Pool,
    book: PacingBook,
    textures: &mut [u64],
    retiring: &mut [u64],
    doomed: &[u64],
    spares: &[u64],
    newest: &[u64],
    stamps: &[u64],
    id: u64,
    view: u64,
    seq: u64,
) -> Called {
    let said = pool::retire(
        pool, book, textures, retiring, doomed, spares, newest, stamps, id, view, seq,
    );
    let answer = answer_done(said.outcome);
    let pool = said.pool;
    Called { pool, book, answer }
}
