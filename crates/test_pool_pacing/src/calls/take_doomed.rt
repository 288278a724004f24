// take_doomed, with a book lent for it.
use pool_memory::{PacingBook, Pool};
use pool_take_doomed::DrainAnswer;

// Hands back the next batch of versions to destroy.
pub fn lend_take_doomed(
    pool: Pool,
    book: PacingBook,
    textures: &[u64],
    retiring: &[u64],
    doomed: &[u64],
    spares: &[u64],
    newest: &[u64],
    stamps: &[u64],
    buffer: &mut [u64],
) -> DrainAnswer {
    let mut lent = book;
    let said = pool_lent_pacing::take_doomed(
        pool, &mut lent, textures, retiring, doomed, spares, newest, stamps, buffer,
    );
    DrainAnswer {
        pool: said.pool,
        book: lent,
        handed: said.handed,
    }
}
