// A level cut into tiles, by the table of tile edges of the shape's block edge.
ghost use Rattle.std.specs.Prelude.{◌≡◌, true};
ghost use Rattle.grid_shapes.specs.Shapes.{is_shape};
ghost use Rattle.grid_stamps.specs.Grids.{TableOf, TilingOk, tiling_of, stamp_count};

use grid_axes::{Axis, axis_in, tiles};
use grid_shapes::{VersionShape, level_extent};

// A level cut into tiles along two axes: its columns and its rows. Like `Axis` it holds no fact of its own, so the functions that need a level's tiling ask for
// `TilingOk`.
#[derive(Clone, Copy, PartialEq, Eq)]
pub struct Tiling {
    pub across: Axis,
    pub down: Axis,
}

// A tile by its column and its row, both counted from 0.
#[derive(Clone, Copy, PartialEq, Eq)]
pub struct Tile {
    pub column: u64,
    pub row: u64,
}

// Returns how a level of the shape is cut into tiles.
pub fn tiling_in(edges: &[u16], s: VersionShape, level: u64) -> Tiling
    requires { (is_shape s ≡ true) × TableOf s edges.now }
    ensures { result ≡ tiling_of s level }
{
    Tiling {
        across: axis_in(edges, level_extent(s.width, level)),
        down: axis_in(edges, level_extent(s.height, level)),
    }
}

// Returns how many stamps a grid has.
pub fn stamp_count(tiling: Tiling) -> u64
    requires { TilingOk tiling }
    ensures { result ≡ stamp_count tiling }
{
    tiles(tiling.across) * tiles(tiling.down)
}
