// note_allocated, with a book lent for it.
use pool_memory::{PacingBook, Pool};
use pool_note_allocated::NotedAnswer;

// Notes how much memory the process has allocated, and gives spares back if that is too much.
pub fn lend_note_allocated(
    pool: Pool,
    book: PacingBook,
    textures: &mut [u64],
    retiring: &[u64],
    doomed: &mut [u64],
    spares: &mut [u64],
    newest: &[u64],
    stamps: &[u64],
    allocated: u64,
) -> NotedAnswer {
    let mut lent = book;
    let said = pool_lent_pacing::note_allocated(
        pool, &mut lent, textures, retiring, doomed, spares, newest, stamps, allocated,
    );
    NotedAnswer {
        pool: said.pool,
        book: lent,
        outcome: said.outcome,
    }
}
