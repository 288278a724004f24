// The write histories: each begins where the one before it ends, every grid's newest stamp is its largest, none passes its texture's write
// count, and the grid's tiling stands beside it.
ghost use Rattle.std.specs.Prelude.{◌≡◌, true, ◌*◌, ◌≤◌, ◌<◌, eqb, length};
ghost use Rattle.base_blocks.specs.Lists.{all};
ghost use Rattle.grid_shapes.specs.Shapes.{is_shape};
ghost use Rattle.grid_stamps.specs.Grids.{TableOf, TilingOk, grid_in, stamp_count};
ghost use Rattle.pool_records.specs.Texture.{read_texture, textures_in};
ghost use Rattle.pool_records.specs.Tilings.{packed_tiling, TilingFits};
ghost use Rattle.pool_memory.specs.IsPool.{is_grid};
ghost use Rattle.pool_formed_textures.specs.Textures.{is_record, BothTables, axes_tiling, grids_fit, history_fits, histories_fit, run_fits};
ghost use Rattle.pool_records.specs.RecordConstants.{texture_stride};

use base_tables::record_at;
use grid_axes::{TILE_EDGES_1, TILE_EDGES_4};
use grid_shapes::{VersionShape, block_edge};
use grid_stamps::{Tiling, is_largest_stamp, stamp_count, tiling_in};
use pool_access::{grid_end, shape_grids, stamp_end};
use pool_records::{
    GridTiling, Record, TEXTURE_GRID_AT, TEXTURE_STAMP_AT, TEXTURE_STRIDE, TextureRecord,
    tiling_number,
};
use pool_rules::GRID_STRIDE;

// Tests that the number stands for a grid of this tiling, whose stamps begin at `start`.
fn tiling_fits(number: u64, start: usize, tiling: Tiling) -> bool
    requires { TilingFits (axes_tiling start tiling) }
    ensures { result ≡ eqb number (packed_tiling (axes_tiling start tiling)) }
{
    let tiling = tiling_number(GridTiling {
        start: start as u64,
        across: tiling.across.edge,
        down: tiling.down.edge,
    });
    number == tiling
}

// Tests a grid of this tiling, whose stamps stand at the front.
fn grid_fits(tiling: Tiling, writes: u64, newest: u64, stamps: &[u64]) -> bool
    requires { TilingOk tiling × (stamp_count tiling ≤ length stamps.now) × (0 < stamp_count tiling) }
    ensures { result ≡ is_grid writes (grid_in tiling newest stamps.now) }
{
    if newest > writes {
        return false;
    }
    is_largest_stamp(stamps, tiling, newest)
}

// Tests the grids of a history that has just these numbers of `newest` and just these stamps, by the table of its format's blocks. Works out
// a level's tiles once, for the tests and for where the next grid begins.
fn grids_fit(edges: &[u16], s: VersionShape, writes: u64, newest: &[u64], stamps: &[u64]) -> bool
    requires { (is_shape s ≡ true) × TableOf s edges.now }
    ensures { result ≡ grids_fit s writes newest.now stamps.now }
{
    let n = shape_grids(s);
    if newest.len() != GRID_STRIDE * n {
        return false;
    }
    let mut at = 0;
    for k in 0..n {
        let level = k as u64 % s.levels;
        let tiling = tiling_in(edges, s, level);
        let count = stamp_count(tiling) as usize;
        if count > stamps.len() - at {
            return false;
        }
        if !tiling_fits(newest[GRID_STRIDE * k + 1], at, tiling) {
            return false;
        }
        if !grid_fits(tiling, writes, newest[GRID_STRIDE * k], &stamps[at..]) {
            return false;
        }
        at += count;
    }
    stamps.len() == at
}

// Tests the history of a record that has just these numbers of `newest` and just these stamps: none of either without a history. Chooses the table
// of its format's blocks once for all its grids.
fn history_fits(one: &[u16], four: &[u16], p: &[u64], newest: &[u64], stamps: &[u64]) -> bool
    requires { (texture_stride ≤ length p.now) × (is_shape (read_texture p.now).shape ≡ true) × BothTables one.now four.now }
    ensures { result ≡ history_fits (read_texture p.now).shape (read_texture p.now).history newest.now stamps.now }
{
    let t = TextureRecord::read(p);
    let shape = t.shape;
    let history = t.history;
    match history {
        Some(n) => {
            if block_edge(shape.format) == 1 {
                return grids_fit(one, shape, n, newest, stamps);
            }
            grids_fit(four, shape, n, newest, stamps)
        }
        None => (newest.len() == 0) & (stamps.len() == 0),
    }
}

// Tests that a run begins at `at`, and that its end is not before that nor past those in use.
fn run_fits(start: u64, at: usize, end: usize, used: usize) -> bool
    ensures { result ≡ run_fits start at end used }
{
    (start == at as u64) & (at <= end) & (end <= used)
}

// Tests the histories by the tables of tile edges of both kinds of blocks. Takes each history to end where the next record says that its own begins,
// and tests that before it reads, so that nothing past those in use is read and no sum is needed.
fn histories_in(
    one: &[u16],
    four: &[u16],
    textures: &[u64],
    n: usize,
    grids: usize,
    used: usize,
    newest: &[u64],
    stamps: &[u64],
) -> bool
    requires { (texture_stride * n ≤ length textures.now) × (all is_record (textures_in n textures.now) ≡ true)
        × (grids ≤ length newest.now) × (used ≤ length stamps.now) × BothTables one.now four.now }
    ensures { result ≡ histories_fit newest.now stamps.now grids used 0 0 (textures_in n textures.now) }
{
    let mut grid = 0;
    let mut stamp = 0;
    for i in 0..n {
        let p = record_at(textures, TEXTURE_STRIDE, i);
        let last = grid_end(textures, n, grids, i);
        let end = stamp_end(textures, n, used, i);
        if !run_fits(p[TEXTURE_GRID_AT], grid, last, grids) {
            return false;
        }
        if !run_fits(p[TEXTURE_STAMP_AT], stamp, end, used) {
            return false;
        }
        if !history_fits(one, four, p, &newest[grid..last], &stamps[stamp..end]) {
            return false;
        }
        grid = last;
        stamp = end;
    }
    (grid == grids) & (stamp == used)
}

// Tests the histories of the first n records, which have `grids` numbers of `newest` and `used` stamps together. Copies the tables of tile edges
// here, once for all histories: each use of a constant array copies the whole of it.
pub fn histories_fit(
    textures: &[u64],
    n: usize,
    grids: usize,
    used: usize,
    newest: &[u64],
    stamps: &[u64],
) -> bool
    requires { (texture_stride * n ≤ length textures.now) × (all is_record (textures_in n textures.now) ≡ true)
        × (grids ≤ length newest.now) × (used ≤ length stamps.now) }
    ensures { result ≡ histories_fit newest.now stamps.now grids used 0 0 (textures_in n textures.now) }
{
    let one = TILE_EDGES_1;
    let four = TILE_EDGES_4;
    histories_in(&one, &four, textures, n, grids, used, newest, stamps)
}
