// dirty_tile, on any memory: some tile that was written since.
ghost use Rattle.pool_memory.specs.Lent.{at_entry};
ghost use Rattle.pool.specs.Queries.{tile_told, DirtyTileOn};

use grid_shapes::Refusal;
use grid_stamps::Tile;
use pool_formed::is_pool;
use pool_memory::{PacingBook, Pool};

// Some tile of a subresource stamped above `held`, or none if there is none.
pub fn dirty_tile(
    pool: Pool,
    book: PacingBook,
    textures: &[u64],
    retiring: &[u64],
    doomed: &[u64],
    spares: &[u64],
    newest: &[u64],
    stamps: &[u64],
    id: u64,
    slice: u64,
    level: u64,
    held: u64,
) -> Result<Option<Tile>, Refusal>
    ensures { DirtyTileOn (at_entry pool book textures.now retiring.now doomed.now spares.now newest.now stamps.now) id slice level held (tile_told result) }
{
    if !is_pool(
        pool, book, textures, retiring, doomed, spares, newest, stamps,
    ) {
        return Err(Refusal::NoPool);
    }
    Ok(pool_note_write::dirty_tile(
        pool, book, textures, retiring, doomed, spares, newest, stamps, id, slice, level, held,
    ))
}
