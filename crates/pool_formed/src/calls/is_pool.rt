// Whether lent memory forms a pool.
ghost use Rattle.std.specs.Prelude.{◌≡◌};
ghost use Rattle.pool_memory.specs.Lent.{at_entry};
ghost use Rattle.pool_memory.specs.IsPool.{is_pool};

use crate::counts_fit::counts_fit;
use crate::numbers_fit::numbers_fit;
use crate::rings_fit::rings_fit;
use pool_formed_textures::textures_fit;
use pool_memory::{PacingBook, Pool};
use pool_open::sizes_fit;
use pool_records::{RETIRING_STRIDE, TEXTURE_STRIDE};

pub fn is_pool(
    pool: Pool,
    book: PacingBook,
    textures: &[u64],
    retiring: &[u64],
    doomed: &[u64],
    spares: &[u64],
    newest: &[u64],
    stamps: &[u64],
) -> bool
    ensures { result ≡ is_pool (at_entry pool book textures.now retiring.now doomed.now spares.now newest.now stamps.now) }
{
    if !sizes_fit(textures, retiring, doomed, spares, newest, stamps) {
        return false;
    }
    let versions = retiring.len() / RETIRING_STRIDE;
    if !counts_fit(
        pool,
        textures.len() / TEXTURE_STRIDE,
        versions,
        newest.len(),
        stamps.len(),
    ) {
        return false;
    }
    if !numbers_fit(pool, book) {
        return false;
    }
    if !rings_fit(pool, versions, retiring, doomed) {
        return false;
    }
    textures_fit(pool, textures, spares, newest, stamps)
}
