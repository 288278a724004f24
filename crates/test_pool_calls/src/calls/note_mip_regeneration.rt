// note_mip_regeneration, made on any memory.
use crate::answers::answer_done;
use crate::called::Called;
use pool_memory::{PacingBook, Pool};

// Notes that every level but the first was made again.
pub fn make_note_mip_regeneration(
    pool: Pool,
    book: PacingBook,
    textures: &mut [u64],
    retiring: &[u64],
    doomed: &[u64],
    spares: &[u64],
    newest: &mut [u64],
    stamps: &mut [u64],
    id: u64,
) -> Called {
    let said = pool::note_mip_regeneration(
        pool, book, textures, retiring, doomed, spares, newest, stamps, id,
    );
    let answer = answer_done(said.outcome);
    let pool = said.pool;
    Called { pool, book, answer }
}
