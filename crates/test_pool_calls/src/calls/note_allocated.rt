// note_allocated, made on any memory, with the pacing book by value or lent.
use crate::answers::say_noted;
use crate::called::Called;
use pool_memory::{PacingBook, Pool};

// Notes how much memory the process has allocated.
pub fn make_note_allocated(
    pool: Pool,
    book: PacingBook,
    textures: &mut [u64],
    retiring: &[u64],
    doomed: &mut [u64],
    spares: &mut [u64],
    newest: &[u64],
    stamps: &[u64],
    allocated: u64,
    lends: bool,
) -> Called {
    if lends {
        return say_noted(test_pool_pacing::lend_note_allocated(
            pool, book, textures, retiring, doomed, spares, newest, stamps, allocated,
        ));
    }
    say_noted(pool::note_allocated(
        pool, book, textures, retiring, doomed, spares, newest, stamps, allocated,
    ))
}
