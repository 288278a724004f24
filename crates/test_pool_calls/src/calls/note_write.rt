// note_write, made on any memory.
use crate::answers::answer_done;
use crate::called::Called;
use grid_rects::TexelRect;
use pool_memory::{PacingBook, Pool};

// Notes a write to one subresource.
pub fn make_note_write(
    pool: Pool,
    book: PacingBook,
    textures: &mut [u64],
    retiring: &[u64],
    doomed: &[u64],
    spares: &[u64],
    newest: &mut [u64],
    stamps: &mut [u64],
    id: u64,
    slice: u64,
    level: u64,
    rect: TexelRect,
) -> Called {
    let said = pool::note_write(
        pool, book, textures, retiring, doomed, spares, newest, stamps, id, slice, level, rect,
    );
    let answer = answer_done(said.outcome);
    let pool = said.pool;
    Called { pool, book, answer }
}
