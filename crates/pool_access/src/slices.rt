// The tilings of a new history's grids, by the table of tile edges of its format's blocks.
ghost use Rattle.std.specs.Prelude.{◌≡◌, true};
ghost use Rattle.grid_shapes.specs.Shapes.{is_shape};
ghost use Rattle.grid_stamps.specs.Grids.{TableOf};
ghost use Rattle.pool_access.specs.Slices.{SliceOf};

use grid_axes::{TILE_EDGES_1, TILE_EDGES_4};
use grid_shapes::{VersionShape, block_edge};
use grid_stamps::{stamp_count, tiling_in};
use pool_records::{GridTiling, tiling_number};

// The most levels that a shape has (refusal 2).
const MOST_LEVELS: usize = 15;

// A slice of a history: for each level what stands beside its grid's newest stamp in the first slice, and the stamps of all its grids.
// In every other slice the grids begin by as many stamps later as the slices before it have.
#[derive(Clone, Copy)]
pub struct SliceTilings {
    pub levels: [u64; MOST_LEVELS],
    pub stamps: u64,
}

// Works out the tilings of a slice's levels: each grid's stamps begin where those of the one before it end.
fn tilings_in(edges: &[u16], shape: VersionShape) -> SliceTilings
    requires { (is_shape shape ≡ true) × TableOf shape edges.now }
    ensures { SliceOf shape result }
{
    let mut levels = [0; MOST_LEVELS];
    let mut start = 0;
    for level in 0..shape.levels {
        let tiling = tiling_in(edges, shape, level);
        levels[level as usize] = tiling_number(GridTiling {
            start,
            across: tiling.across.edge,
            down: tiling.down.edge,
        });
        start += stamp_count(tiling);
    }
    SliceTilings {
        levels,
        stamps: start,
    }
}

// Returns the tilings of a slice. The compiler copies a table wherever it is named, so that it is named once for all levels, and only
// where a history begins: a write and a plan find the edges beside the grid.
pub fn slice_tilings(shape: VersionShape) -> SliceTilings
    requires { is_shape shape ≡ true }
    ensures { SliceOf shape result }
{
    if block_edge(shape.format) == 1 {
        let edges = TILE_EDGES_1;
        return tilings_in(&edges, shape);
    }
    let edges = TILE_EDGES_4;
    tilings_in(&edges, shape)
}
