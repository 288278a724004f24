// parked_bytes, on any memory: the bytes of all spares.
ghost use Rattle.std.specs.Prelude.{◌≡◌};
ghost use Rattle.pool_memory.specs.Lent.{at_entry};
ghost use Rattle.pool.specs.Queries.{bytes_told, parked_bytes_on};

use grid_shapes::Refusal;
use pool_formed::is_pool;
use pool_memory::{PacingBook, Pool};

// Bytes of all spares.
pub fn parked_bytes(
    pool: Pool,
    book: PacingBook,
    textures: &[u64],
    retiring: &[u64],
    doomed: &[u64],
    spares: &[u64],
    newest: &[u64],
    stamps: &[u64],
) -> Result<u64, Refusal>
    ensures { bytes_told result ≡ parked_bytes_on (at_entry pool book textures.now retiring.now doomed.now spares.now newest.now stamps.now) }
{
    if !is_pool(
        pool, book, textures, retiring, doomed, spares, newest, stamps,
    ) {
        return Err(Refusal::NoPool);
    }
    Ok(pool.parked)
}
