// records_writes, on any memory: whether a texture keeps a history.
ghost use Rattle.std.specs.Prelude.{◌≡◌};
ghost use Rattle.pool_memory.specs.Lent.{at_entry};
ghost use Rattle.pool.specs.Queries.{records_told, records_writes_on};

use grid_shapes::Refusal;
use pool_formed::is_pool;
use pool_memory::{PacingBook, Pool};

// Whether the texture keeps a history of its writes.
pub fn records_writes(
    pool: Pool,
    book: PacingBook,
    textures: &[u64],
    retiring: &[u64],
    doomed: &[u64],
    spares: &[u64],
    newest: &[u64],
    stamps: &[u64],
    id: u64,
) -> Result<bool, Refusal>
    ensures { records_told result ≡ records_writes_on (at_entry pool book textures.now retiring.now doomed.now spares.now newest.now stamps.now) id }
{
    if !is_pool(
        pool, book, textures, retiring, doomed, spares, newest, stamps,
    ) {
        return Err(Refusal::NoPool);
    }
    Ok(pool_note_write::records_writes(
        pool, book, textures, retiring, doomed, spares, newest, stamps, id,
    ))
}
