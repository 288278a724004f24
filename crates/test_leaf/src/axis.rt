// Questions on the tiles along an axis and on the tables of their edges. The Rust's functions take any 32-bit extent, those of `grid_axes`
// only extents that a level can have, so longer axes are answered here, by the same rule.
ghost use Rattle.std.specs.Prelude.{◌≡◌, true, ◌≤◌, ◌<◌, length, IfSome};
ghost use Rattle.grid_axes.specs.Axes.{tile_edge, axis_of, tiles_of};
ghost use Rattle.grid_axes.specs.EdgeTables.{has_table};

use crate::answer::{Answer, number};
use crate::fields::read_all;
use grid_axes::{EDGE_ENTRIES, MAX_TILES_PER_AXIS, MIN_TILE_TEXELS, table_edge};

// Returns the side of a tile, as `grid_axes::tile_edge` has it.
fn long_edge(extent: u64, block: u64) -> u64
    requires { (extent ≤ 4294967295) × (0 < block) × (block ≤ 16) }
    ensures { result ≡ tile_edge extent block }
{
    let least = MIN_TILE_TEXELS.max((extent + 31) / MAX_TILES_PER_AXIS);
    (least + (block - 1)) / block * block
}

// Returns the side of a tile along any axis.
fn edge_of(extent: u64, block: u64) -> u64
    requires { (extent ≤ 4294967295) × (has_table block ≡ true) }
    ensures { result ≡ tile_edge extent block }
{
    if extent <= 16384 {
        grid_axes::tile_edge(extent, block)
    } else {
        long_edge(extent, block)
    }
}

// Returns the tiles along any axis.
fn tiles_of(extent: u64, block: u64) -> u64
    requires { (extent ≤ 4294967295) × (has_table block ≡ true) }
    ensures { result ≡ tiles_of (axis_of extent block) }
{
    if extent <= 16384 {
        return grid_axes::tiles(grid_axes::axis_of(extent, block));
    }
    let edge = long_edge(extent, block);
    (extent + (edge - 1)) / edge
}

// The axis of a question.
#[derive(Clone, Copy)]
struct Asked {
    extent: u64,
    block: u64,
}

// Returns the axis EXTENT,BLOCK. There is none where the extent is no 32-bit number, or a table of edges lacks the block.
fn axis_in(fields: &[u8]) -> Option<Asked>
    requires { length fields.now ≤ 65536 }
    ensures { IfSome result (λ a. (a.extent ≤ 4294967295) × (has_table a.block ≡ true)) }
{
    let [extent, block] = read_all::<2>(fields, 0)?;
    if extent > 4294967295 {
        return None;
    }
    match block {
        1 | 4 => Some(Asked { extent, block }),
        _ => None,
    }
}

// Answers EXTENT,BLOCK with the side of a tile.
pub fn edge_along(fields: &[u8]) -> Option<Answer>
    requires { length fields.now ≤ 65536 }
{
    let asked = axis_in(fields)?;
    Some(number(edge_of(asked.extent, asked.block)))
}

// Answers EXTENT,BLOCK with the number of tiles.
pub fn tiles_along(fields: &[u8]) -> Option<Answer>
    requires { length fields.now ≤ 65536 }
{
    let asked = axis_in(fields)?;
    Some(number(tiles_of(asked.extent, asked.block)))
}

// Answers BLOCK,INDEX with the entry of that block edge's table.
pub fn table_entry(fields: &[u8]) -> Option<Answer>
    requires { length fields.now ≤ 65536 }
{
    let [block, index] = read_all::<2>(fields, 0)?;
    if index >= EDGE_ENTRIES as u64 {
        return None;
    }
    match block {
        1 | 4 => Some(number(table_edge(block, index as usize))),
        _ => None,
    }
}
