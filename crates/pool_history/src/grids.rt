// The grids of a history, which stand one behind the other: one stamped, all stamped again by a mip regeneration.
ghost use Rattle.std.specs.Prelude.{◌≡◌, true, ◌+◌, ◌*◌, ◌%◌, ◌≤◌, ◌<◌, length, set};
ghost use Rattle.std.proofs.lemmas.List.Edits.{sets};
ghost use Rattle.grid_shapes.specs.Shapes.{is_shape};
ghost use Rattle.grid_stamps.specs.Grids.{tiling_of, stamp_count, stamped_by};
ghost use Rattle.pool_history.specs.Remade.{newest_written, stamps_written, remade_grid, remade_grids};
ghost use Rattle.pool_memory.specs.Reading.{grid_on};
ghost use Rattle.pool_records.specs.Tilings.{EdgesAt, TilingsAt};
ghost use Rattle.pool_rules.specs.HistorySizes.{history_size};
ghost use Rattle.pool_rules.specs.Model.{grid_count};
ghost use Rattle.pool_rules.specs.RuleConstants.{grid_stride};

use grid_rects::{TexelRect, level_rect};
use grid_shapes::{VersionShape, level_extent};
use grid_stamps::{stamp, stamp_count};
use pool_access::{shape_grids, stamps_at, tiling_at};
use pool_rules::GRID_STRIDE;

// Stamps a level's grid with n where the rectangle touches a tile. The grid's newest stamp has place p in `newest`, its tiling
// the next, and its stamps begin at `at`; the others stay. Returns where its stamps end, which is where those of the next grid begin.
pub fn stamp_grid(
    newest: &mut [u64],
    stamps: &mut [u64],
    p: usize,
    at: usize,
    shape: VersionShape,
    level: u64,
    rect: TexelRect,
    n: u64,
) -> usize
    requires { (is_shape shape ≡ true) × (p + 1 < length newest.old) × EdgesAt newest.old p shape level
        × (at + stamp_count (tiling_of shape level) ≤ length stamps.old) }
    ensures { (result ≡ at + stamp_count (tiling_of shape level))
        × (newest.new
        ≡ set newest.old p
        (stamped_by (tiling_of shape level) rect n (grid_on shape level newest.old stamps.old p at)).newest)
        × (stamps.new
        ≡ sets stamps.old at
        (stamped_by (tiling_of shape level) rect n (grid_on shape level newest.old stamps.old p at)).stamps) }
{
    let tiling = tiling_at(newest, p, shape, level);
    let count = stamp_count(tiling) as usize;
    let end = at + count;
    let latest = stamp(&mut stamps[at..end], tiling, rect, n, newest[p]);
    newest[p] = latest;
    end
}

// Stamps a grid whole, unless it is the first level's: a regeneration reads that one and makes all others from it. Returns where its
// stamps end.
fn regenerate_grid(
    newest: &mut [u64],
    stamps: &mut [u64],
    p: usize,
    at: usize,
    shape: VersionShape,
    level: u64,
    n: u64,
) -> usize
    requires { (is_shape shape ≡ true) × (p + 1 < length newest.old) × EdgesAt newest.old p shape level
        × (at + stamp_count (tiling_of shape level) ≤ length stamps.old) }
    ensures { (result ≡ at + stamp_count (tiling_of shape level))
        × (newest.new
        ≡ set newest.old p (remade_grid shape n level (grid_on shape level newest.old stamps.old p at)).newest)
        × (stamps.new
        ≡ sets stamps.old at (remade_grid shape n level (grid_on shape level newest.old stamps.old p at)).stamps) }
{
    if level == 0 {
        return at + stamps_at(newest, p, shape, level);
    }
    let width = level_extent(shape.width, level);
    let height = level_extent(shape.height, level);
    stamp_grid(
        newest,
        stamps,
        p,
        at,
        shape,
        level,
        level_rect(width, height),
        n,
    )
}

// Returns the level of the grid after one of this level: after the last comes the next slice's first.
fn next_level(level: u64, levels: u64) -> u64
    requires { level < levels }
    ensures { result ≡ (level + 1) % levels }
{
    if level + 1 < levels { level + 1 } else { 0 }
}

// Stamps the grids of a history of the shape, every level but the first whole. The first grid has place `grid` in `newest`, and its
// stamps begin at `stamp`; each other's begin where those of the one before it end.
pub fn regenerate_grids(
    newest: &mut [u64],
    stamps: &mut [u64],
    grid: usize,
    stamp: usize,
    shape: VersionShape,
    n: u64,
)
    requires { (is_shape shape ≡ true) × (grid + grid_stride * grid_count shape ≤ length newest.old) × TilingsAt newest.old grid shape
        × (stamp + history_size shape ≤ length stamps.old) }
    ensures { (newest.new
        ≡ newest_written newest.old grid (remade_grids shape n newest.old stamps.old grid stamp (grid_count shape)))
        × (stamps.new
        ≡ stamps_written stamps.old stamp (remade_grids shape n newest.old stamps.old grid stamp (grid_count shape))) }
{
    let grids = shape_grids(shape);
    let mut at = stamp;
    let mut level = 0;
    for k in 0..grids {
        let p = grid + GRID_STRIDE * k;
        at = regenerate_grid(newest, stamps, p, at, shape, level, n);
        level = next_level(level, shape.levels);
    }
}
