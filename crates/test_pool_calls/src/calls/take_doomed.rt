// take_doomed, made on any memory, with the pacing book by value or lent.
use crate::answers::say_handed;
use crate::called::Called;
use pool_memory::{PacingBook, Pool};

// Hands back the next batch of versions to destroy.
pub fn make_take_doomed(
    pool: Pool,
    book: PacingBook,
    textures: &[u64],
    retiring: &[u64],
    doomed: &[u64],
    spares: &[u64],
    newest: &[u64],
    stamps: &[u64],
    views: &mut [u64],
    lends: bool,
) -> Called {
    if lends {
        return say_handed(test_pool_pacing::lend_take_doomed(
            pool, book, textures, retiring, doomed, spares, newest, stamps, views,
        ));
    }
    say_handed(pool::take_doomed(
        pool, book, textures, retiring, doomed, spares, newest, stamps, views,
    ))
}
