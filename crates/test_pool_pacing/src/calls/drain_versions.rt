// drain_versions, with a book lent for it.
use pool_memory::{PacingBook, Pool};
use pool_take_doomed::DrainAnswer;

// Hands back every version but the one in the hand.
pub fn lend_drain_versions(
    pool: Pool,
    book: PacingBook,
    textures: &mut [u64],
    retiring: &[u64],
    doomed: &[u64],
    spares: &[u64],
    newest: &[u64],
    stamps: &[u64],
    buffer: &mut [u64],
) -> DrainAnswer {
    let mut lent = book;
    let said = pool_lent_pacing::drain_versions(
        pool, &mut lent, textures, retiring, doomed, spares, newest, stamps, buffer,
    );
    DrainAnswer {
        pool: said.pool,
        book: lent,
        handed: said.handed,
    }
}
