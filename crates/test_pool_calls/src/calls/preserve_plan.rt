// preserve_plan, made on any memory.
use crate::answers::answer_planned;
use crate::called::Called;
use grid_shapes::VersionShape;
use pool_memory::{PacingBook, Pool};
use pool_rules::Held;

// Plans the copies of a rename.
pub fn make_preserve_plan(
    pool: Pool,
    book: PacingBook,
    textures: &[u64],
    retiring: &[u64],
    doomed: &[u64],
    spares: &[u64],
    newest: &[u64],
    stamps: &[u64],
    copies: &mut [u64],
    id: u64,
    shape: VersionShape,
    held: Held,
    slice: u64,
    level: u64,
    cover: bool,
) -> Called {
    let said = pool::preserve_plan(
        pool, book, textures, retiring, doomed, spares, newest, stamps, copies, id, shape, held,
        slice, level, cover,
    );
    let answer = answer_planned(said);
    Called { pool, book, answer }
}
