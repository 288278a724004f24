// dirty_tile: some tile that was written since.
ghost use Rattle.std.specs.Prelude.{◌≡◌, true};
ghost use Rattle.grid_stamps.specs.Grids.{tiling_of, IsDirtyTile};
ghost use Rattle.pool_rules.specs.Histories.{in_shape};
ghost use Rattle.pool_rules.specs.NoteWrite.{IsDirtyTileOf};
ghost use Rattle.pool_memory.specs.Lent.{lent_by, at_entry};
ghost use Rattle.pool_memory.specs.Reading.{model_of};
ghost use Rattle.pool_memory.specs.IsPool.{is_pool};
ghost use Rattle.pool_note_write.specs.History.{HistoryAt, stamps_on};
ghost use Rattle.pool_records.specs.Texture.{texture_in};

use crate::history::{history_at, in_shape};
use grid_stamps::{Tile, stamp_count};
use pool_access::{start_at, texture_at, tiling_at};
use pool_memory::{PacingBook, Pool};
use pool_records::find_texture;
use pool_rules::GRID_STRIDE;

// Finds some tile of a subresource of texture i that is stamped above `held`, in its grid's part of the stamps: where that begins and its
// tiles' edges stand beside its newest stamp.
fn dirty_subresource(
    textures: &[u64],
    newest: &[u64],
    stamps: &[u64],
    i: usize,
    slice: u64,
    level: u64,
    held: u64,
) -> Option<Tile>
    requires { HistoryAt textures.now newest.now stamps.now i × (in_shape (texture_in textures.now i).shape slice level ≡ true) }
    ensures { IsDirtyTile (tiling_of (texture_in textures.now i).shape level) held
        (stamps_on textures.now i slice level stamps.now) result }
{
    let t = texture_at(textures, i);
    let shape = t.shape;
    let p = t.grid as usize + GRID_STRIDE * (slice * shape.levels + level) as usize;
    let a = t.stamp as usize + start_at(newest, p);
    let tiling = tiling_at(newest, p, shape, level);
    let count = stamp_count(tiling) as usize;
    let e = a + count;
    grid_views::dirty_tile(&stamps[a..e], tiling, held)
}

// Finds some tile of a subresource stamped above `held`, or none if there is none; which one is left open. There is none where the
// texture is not tracked, has no history or lacks the subresource.
pub fn dirty_tile(
    pool: Pool,
    book: PacingBook,
    textures: &[u64],
    retiring: &[u64],
    doomed: &[u64],
    spares: &[u64],
    newest: &[u64],
    stamps: &[u64],
    id: u64,
    slice: u64,
    level: u64,
    held: u64,
) -> Option<Tile>
    requires { is_pool (lent_by pool book textures.now retiring.now doomed.now spares.now newest.now stamps.now) ≡ true }
    ensures { IsDirtyTileOf (model_of (at_entry pool book textures.now retiring.now doomed.now spares.now newest.now stamps.now)) id slice level held result }
{
    let tracked = pool.tracked;
    let i = find_texture(textures, tracked, id);
    history_at(textures, tracked, i, id)?;
    let t = texture_at(textures, i);
    if !in_shape(t.shape, slice, level) {
        return None;
    }
    dirty_subresource(textures, newest, stamps, i, slice, level, held)
}
