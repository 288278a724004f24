// The edges of tiles, by table.
ghost use Rattle.std.specs.Prelude.{◌≡◌, true, ◌≤◌, ◌<◌, length};
ghost use Rattle.grid_axes.specs.Axes.{tile_edge, axis_of};
ghost use Rattle.grid_axes.specs.AxisConstants.{edge_entries};
ghost use Rattle.grid_axes.specs.EdgeTables.{has_table, edge_at, entry_of, edge_index, axis_in};

use crate::axis::Axis;
use crate::constants::MAX_TILES_PER_AXIS;
use crate::tables::block_1::TILE_EDGES_1;
use crate::tables::block_4::TILE_EDGES_4;

// Added before a division by MAX_TILES_PER_AXIS, so that it rounds up. A difference in the code would ask for one proof more.
const ROUND_UP: u64 = MAX_TILES_PER_AXIS - 1;

// Returns where a table has the edge of an axis: at `extent` over 32 rounded up.
fn edge_index(extent: u64) -> usize
    requires { extent ≤ 16384 }
    ensures { (result ≡ edge_index extent) × (result < edge_entries) }
{
    ((extent + ROUND_UP) / MAX_TILES_PER_AXIS) as usize
}

// Returns entry k of a table.
fn entry_of(edges: &[u16], k: usize) -> u64
    requires { k < length edges.now }
    ensures { result ≡ entry_of edges.now k }
{
    edges[k] as u64
}

// Returns the axis of a level of `extent` texels, by the table of its format's blocks.
pub fn axis_in(edges: &[u16], extent: u64) -> Axis
    requires { (extent ≤ 16384) × (length edges.now ≡ edge_entries) }
    ensures { result ≡ axis_in edges.now extent }
{
    Axis {
        extent,
        edge: entry_of(edges, edge_index(extent)),
    }
}

// Returns entry k of the table for blocks of `block` texels. A table is copied at each use, so that whoever needs several entries
// copies it once and calls `axis_in`.
pub fn table_edge(block: u64, k: usize) -> u64
    requires { (has_table block ≡ true) × (k < edge_entries) }
    ensures { result ≡ edge_at block k }
{
    if block == 1 {
        let edges = TILE_EDGES_1;
        return entry_of(&edges, k);
    }
    let edges = TILE_EDGES_4;
    entry_of(&edges, k)
}

// Returns the side of a tile along an axis of `extent` texels, in a format of `block`-texel blocks.
pub fn tile_edge(extent: u64, block: u64) -> u64
    requires { (extent ≤ 16384) × (has_table block ≡ true) }
    ensures { result ≡ tile_edge extent block }
{
    table_edge(block, edge_index(extent))
}

// Returns the axis of a level of `extent` texels, in a format of `block`-texel blocks.
pub fn axis_of(extent: u64, block: u64) -> Axis
    requires { (extent ≤ 16384) × (has_table block ≡ true) }
    ensures { result ≡ axis_of extent block }
{
    Axis {
        extent,
        edge: tile_edge(extent, block),
    }
}
