// A pool with the textures of a sheet, by the calls on any memory.
use crate::on_sheet::{id_of, shape_of, spares_of, submission_of};
use pool_memory::{PacingBook, Pool};

// Retires a version of a texture and parks it, so that it becomes a spare.
fn add_spare(
    pool: Pool,
    book: PacingBook,
    textures: &mut [u64],
    retiring: &mut [u64],
    doomed: &mut [u64],
    spares: &mut [u64],
    newest: &[u64],
    stamps: &[u64],
    id: u64,
    seq: u64,
) -> Pool {
    let retired = pool::retire(
        pool, book, textures, retiring, doomed, spares, newest, stamps, id, seq, seq,
    );
    let popped = pool::pop_retired(
        retired.pool,
        book,
        textures,
        retiring,
        doomed,
        spares,
        newest,
        stamps,
        seq,
    );
    let parked = pool::park(
        popped.pool,
        book,
        textures,
        retiring,
        doomed,
        spares,
        newest,
        stamps,
        0,
        seq,
    );
    parked.pool
}

// Begins to track a texture, which records no writes, and adds its spares.
fn add_texture(
    pool: Pool,
    book: PacingBook,
    textures: &mut [u64],
    retiring: &mut [u64],
    doomed: &mut [u64],
    spares: &mut [u64],
    newest: &mut [u64],
    stamps: &mut [u64],
    i: u64,
) -> Pool {
    let id = id_of(i);
    let seq = submission_of(i);
    let taken = pool::take_spare(
        pool,
        book,
        textures,
        retiring,
        doomed,
        spares,
        newest,
        stamps,
        id,
        shape_of(seq),
        false,
        seq,
    );
    let n = spares_of(i);
    let mut counts = taken.pool;
    for _ in 0..n {
        counts = add_spare(
            counts, book, textures, retiring, doomed, spares, newest, stamps, id, seq,
        );
    }
    counts
}

// Adds n textures.
pub fn fill(
    pool: Pool,
    book: PacingBook,
    textures: &mut [u64],
    retiring: &mut [u64],
    doomed: &mut [u64],
    spares: &mut [u64],
    newest: &mut [u64],
    stamps: &mut [u64],
    n: u64,
) -> Pool {
    let mut counts = pool;
    for i in 0..n {
        counts = add_texture(
            counts, book, textures, retiring, doomed, spares, newest, stamps, i,
        );
    }
    counts
}
