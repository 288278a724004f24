// take_spare, made on any memory.
use crate::answers::answer_taken;
use crate::called::Called;
use grid_shapes::VersionShape;
use pool_memory::{PacingBook, Pool};

// Starts a rename.
pub fn make_take_spare(
    pool: Pool,
    book: PacingBook,
    textures: &mut [u64],
    retiring: &[u64],
    doomed: &mut [u64],
    spares: &mut [u64],
    newest: &mut [u64],
    stamps: &mut [u64],
    id: u64,
    shape: VersionShape,
    records: bool,
    seq: u64,
) -> Called {
    let said = pool::take_spare(
        pool, book, textures, retiring, doomed, spares, newest, stamps, id, shape, records, seq,
    );
    let taken = said.taken;
    let answer = answer_taken(taken);
    let pool = said.pool;
    Called { pool, book, answer }
}
