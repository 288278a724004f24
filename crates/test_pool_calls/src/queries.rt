// The queries of the checked face, which alter nothing.
use crate::calls::print_sheet::make_print_sheet;
use crate::queried::{Queried, Told};
use grid_shapes::Refusal;
use pool_memory::{PacingBook, Pool};
use test_pool_lines::OwnLine;

// Returns whether the memory forms a pool.
fn say_formed(
    pool: Pool,
    book: PacingBook,
    textures: &[u64],
    retiring: &[u64],
    doomed: &[u64],
    spares: &[u64],
    newest: &[u64],
    stamps: &[u64],
) -> Result<Told, Refusal> {
    if pool_formed::is_pool(
        pool, book, textures, retiring, doomed, spares, newest, stamps,
    ) {
        Ok(Told::Formed)
    } else {
        Err(Refusal::NoPool)
    }
}

// Makes the query of a line, if it has one that is lent no buffer.
fn ask_query(
    pool: Pool,
    book: PacingBook,
    textures: &[u64],
    retiring: &[u64],
    doomed: &[u64],
    spares: &[u64],
    newest: &[u64],
    stamps: &[u64],
    line: OwnLine,
) -> Option<Result<Told, Refusal>> {
    Some(match line {
        OwnLine::Records(id) => pool::records_writes(
            pool, book, textures, retiring, doomed, spares, newest, stamps, id,
        )
        .map(|records| Told::Number(records as u64)),
        OwnLine::Parked => pool::parked_bytes(
            pool, book, textures, retiring, doomed, spares, newest, stamps,
        )
        .map(Told::Number),
        OwnLine::Pending => pool::pending_destroy_bytes(
            pool, book, textures, retiring, doomed, spares, newest, stamps,
        )
        .map(Told::Number),
        OwnLine::Formed => say_formed(
            pool, book, textures, retiring, doomed, spares, newest, stamps,
        ),
        OwnLine::Dirty {
            id,
            slice,
            level,
            held,
        } => pool::dirty_tile(
            pool, book, textures, retiring, doomed, spares, newest, stamps, id, slice, level, held,
        )
        .map(Told::Tile),
        _ => return None,
    })
}

// Makes the query of a line, if it has one.
pub fn make_query(
    pool: Pool,
    book: PacingBook,
    textures: &[u64],
    retiring: &[u64],
    doomed: &[u64],
    spares: &[u64],
    newest: &[u64],
    stamps: &[u64],
    line: OwnLine,
) -> Queried {
    match line {
        OwnLine::Sheet(bytes) => make_print_sheet(
            pool, book, textures, retiring, doomed, spares, newest, stamps, bytes,
        ),
        _ => Queried {
            answer: ask_query(
                pool, book, textures, retiring, doomed, spares, newest, stamps, line,
            ),
            kept: true,
        },
    }
}
