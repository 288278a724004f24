// forget_texture, made on any memory.
use crate::answers::answer_done;
use crate::called::Called;
use pool_memory::{PacingBook, Pool};

// Stops tracking a released texture.
pub fn make_forget_texture(
    pool: Pool,
    book: PacingBook,
    textures: &mut [u64],
    retiring: &[u64],
    doomed: &mut [u64],
    spares: &mut [u64],
    newest: &mut [u64],
    stamps: &mut [u64],
    id: u64,
) -> Called {
    let said = pool::forget_texture(
        pool, book, textures, retiring, doomed, spares, newest, stamps, id,
    );
    let answer = answer_done(said.outcome);
    let pool = said.pool;
    Called { pool, book, answer }
}
