// What a texture's record says of its history, and the record and the grids changed by a write or a regeneration.
ghost use Rattle.std.specs.Prelude.{◌≡◌, true, ◌+◌, ◌*◌, ◌≤◌, length, set};
ghost use Rattle.std.proofs.lemmas.List.Edits.{sets};
ghost use Rattle.pool_records.specs.Recorded.{RecordedFits};
ghost use Rattle.pool_records.specs.Texture.{write_texture, texture_in};
ghost use Rattle.pool_rules.specs.Histories.{in_shape};
ghost use Rattle.pool_history.specs.Remade.{newest_written, stamps_written};
ghost use Rattle.pool_note_write.specs.History.{recorded_at, recorded_as, HistoryAt, newest_place, stamps_place, stamped_on, remade_at};
ghost use Rattle.pool_records.specs.RecordConstants.{texture_stride};

use grid_rects::TexelRect;
use grid_shapes::{VersionShape, slices};
use pool_access::{has_id, put_texture, start_at, texture_at};
use pool_history::{regenerate_grids, stamp_grid};
use pool_records::TextureRecord;
use pool_rules::GRID_STRIDE;

// Returns what record i, where the search for the id ended, says of its history. A texture that is not tracked has none.
pub fn history_at(textures: &[u64], tracked: usize, i: usize, id: u64) -> Option<u64>
    requires { texture_stride * tracked ≤ length textures.now }
    ensures { result ≡ recorded_at textures.now tracked i id }
{
    if !has_id(textures, tracked, i, id) {
        return None;
    }
    texture_at(textures, i).history
}

// Tells whether the shape has the subresource.
pub fn in_shape(s: VersionShape, slice: u64, level: u64) -> bool
    ensures { result ≡ in_shape s slice level }
{
    (slice < slices(s)) & (level < s.levels)
}

// Writes record i over with another history.
pub fn set_history(textures: &mut [u64], i: usize, history: Option<u64>)
    requires { (texture_stride * i + texture_stride ≤ length textures.old) × RecordedFits history }
    ensures { textures.new
        ≡ sets textures.old (texture_stride * i) (write_texture (recorded_as history (texture_in textures.old i))) }
{
    let t = texture_at(textures, i);
    put_texture(textures, i, TextureRecord { history, ..t });
}

// Stamps the grid of a subresource of texture i with n, where the rectangle touches a tile. The texture's grids stand slice by slice,
// level by level; where this one's stamps begin stands beside its newest stamp, so no levels are added up.
pub fn stamp_subresource(
    textures: &[u64],
    newest: &mut [u64],
    stamps: &mut [u64],
    i: usize,
    slice: u64,
    level: u64,
    rect: TexelRect,
    n: u64,
)
    requires { HistoryAt textures.now newest.old stamps.old i × (in_shape (texture_in textures.now i).shape slice level ≡ true) }
    ensures { (newest.new
        ≡ set newest.old (newest_place textures.now i slice level)
        (stamped_on textures.now i slice level rect n newest.old stamps.old).newest)
        × (stamps.new
        ≡ sets stamps.old (stamps_place textures.now i slice level)
        (stamped_on textures.now i slice level rect n newest.old stamps.old).stamps) }
{
    let t = texture_at(textures, i);
    let shape = t.shape;
    let p = t.grid as usize + GRID_STRIDE * (slice * shape.levels + level) as usize;
    let at = t.stamp as usize + start_at(newest, p);
    stamp_grid(newest, stamps, p, at, shape, level, rect, n);
}

// Stamps the grids of texture i with n, every level but the first whole.
pub fn regenerate_history(
    textures: &[u64],
    newest: &mut [u64],
    stamps: &mut [u64],
    i: usize,
    n: u64,
)
    requires { HistoryAt textures.now newest.old stamps.old i }
    ensures { (newest.new
        ≡ newest_written newest.old (texture_in textures.now i).grid
        (remade_at textures.now i n newest.old stamps.old))
        × (stamps.new
        ≡ stamps_written stamps.old (texture_in textures.now i).stamp
        (remade_at textures.now i n newest.old stamps.old)) }
{
    let t = texture_at(textures, i);
    regenerate_grids(
        newest,
        stamps,
        t.grid as usize,
        t.stamp as usize,
        t.shape,
        n,
    );
}
