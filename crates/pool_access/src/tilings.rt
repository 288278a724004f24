// What stands beside a grid's newest stamp: its level's tiling, and where its stamps begin, without a look at the other levels.
ghost use Rattle.std.specs.Prelude.{◌≡◌, true, ◌+◌, ◌<◌, length};
ghost use Rattle.grid_shapes.specs.Shapes.{is_shape};
ghost use Rattle.grid_stamps.specs.Grids.{tiling_of, stamp_count};
ghost use Rattle.pool_records.specs.Tilings.{tiling_in, EdgesAt};

use grid_axes::Axis;
use grid_shapes::{VersionShape, level_extent};
use grid_stamps::{Tiling, stamp_count};
use pool_records::read_tiling;

// Returns the tiling of a level whose grid has place p in `newest`.
pub fn tiling_at(newest: &[u64], p: usize, shape: VersionShape, level: u64) -> Tiling
    requires { (p + 1 < length newest.now) × EdgesAt newest.now p shape level }
    ensures { result ≡ tiling_of shape level }
{
    let t = read_tiling(newest[p + 1]);
    Tiling {
        across: Axis {
            extent: level_extent(shape.width, level),
            edge: t.across,
        },
        down: Axis {
            extent: level_extent(shape.height, level),
            edge: t.down,
        },
    }
}

// Returns how many stamps the grid at place p has.
pub fn stamps_at(newest: &[u64], p: usize, shape: VersionShape, level: u64) -> usize
    requires { (is_shape shape ≡ true) × (p + 1 < length newest.now) × EdgesAt newest.now p shape level }
    ensures { result ≡ stamp_count (tiling_of shape level) }
{
    stamp_count(tiling_at(newest, p, shape, level)) as usize
}

// Returns how many of its history's stamps stand before those of the grid at place p.
pub fn start_at(newest: &[u64], p: usize) -> usize
    requires { p + 1 < length newest.now }
    ensures { result ≡ (tiling_in newest.now p).start }
{
    let t = read_tiling(newest[p + 1]);
    t.start as usize
}
