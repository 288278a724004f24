// drain_versions, made on any memory, with the pacing book by value or lent.
use crate::answers::say_handed;
use crate::called::Called;
use pool_memory::{PacingBook, Pool};

// Hands back every version but the one in the hand.
pub fn make_drain_versions(
    pool: Pool,
    book: PacingBook,
    textures: &mut [u64],
    retiring: &[u64],
    doomed: &[u64],
    spares: &[u64],
    newest: &[u64],
    stamps: &[u64],
    views: &mut [u64],
    lends: bool,
) -> Called {
    if lends {
        return say_handed(test_pool_pacing::lend_drain_versions(
            pool, book, textures, retiring, doomed, spares, newest, stamps, views,
        ));
    }
    say_handed(pool::drain_versions(
        pool, book, textures, retiring, doomed, spares, newest, stamps, views,
    ))
}
