// Extents of levels, and their tiles over every extent that a level can have.
ghost use Rattle.std.specs.Prelude.{◌≡◌, true, ◌≤◌, ◌<◌};
ghost use Rattle.grid_axes.specs.EdgeTables.{has_table};

use crate::print::figure;
use grid_axes::{TILE_EDGES_1, TILE_EDGES_4};
use grid_stamps::Tiling;

// What was seen of the edges so far: the least and the largest, by how much one exceeds the larger of 16 and a 32nd of the extent
// rounded up, what is left of one by whole blocks, and the most tiles along an axis.
#[derive(Clone, Copy)]
struct Seen {
    least: u64,
    largest: u64,
    over: u64,
    left: u64,
    tiles: u64,
}

// Prints the extent of a level.
fn print_extent(base: u64, level: u64) {
    figure(
        b"level_extent",
        &[base, level, grid_shapes::level_extent(base, level)],
    );
}

// Returns by how much an edge exceeds the least one. An edge that is too short shows as a number that is too large.
fn excess(edge: u64, least: u64) -> u64 {
    edge.checked_sub(least).unwrap_or(u64::MAX)
}

// Counts the tiles along an axis.
fn tile_count(extent: u64, block: u64) -> u64
    requires { (extent ≤ 16384) × (has_table block ≡ true) }
{
    grid_axes::tiles(grid_axes::axis_of(extent, block))
}

// Looks at one extent more.
fn look(seen: Seen, extent: u64, block: u64) -> Seen
    requires { (extent ≤ 16384) × (has_table block ≡ true) × (0 < block) }
{
    let edge = grid_axes::tile_edge(extent, block);
    let least = 16.max((extent + 31) / 32);
    Seen {
        least: seen.least.min(edge),
        largest: seen.largest.max(edge),
        over: seen.over.max(excess(edge, least)),
        left: seen.left.max(edge % block),
        tiles: seen.tiles.max(tile_count(extent, block)),
    }
}

// Looks at every extent from 1 to 16,384.
fn look_at_all(block: u64) -> Seen
    requires { (has_table block ≡ true) × (0 < block) }
{
    let mut seen = Seen {
        least: u64::MAX,
        largest: 0,
        over: 0,
        left: 0,
        tiles: 0,
    };
    for extent in 1..=16384 {
        seen = look(seen, extent, block);
    }
    seen
}

// Prints what was seen of the tiles.
fn print_tiles(block: u64)
    requires { (has_table block ≡ true) × (0 < block) }
{
    let seen = look_at_all(block);
    figure(b"least_tile_edge", &[block, seen.least]);
    figure(b"largest_tile_edge", &[block, seen.largest]);
    figure(b"most_tile_edge_over", &[block, seen.over]);
    figure(b"most_tile_edge_left", &[block, seen.left]);
    figure(b"most_tiles", &[block, seen.tiles]);
}

// Returns how many stamps a square level has.
fn stamps(extent: u64, block: u64) -> u64
    requires { (extent ≤ 16384) × (has_table block ≡ true) }
{
    let axis = grid_axes::axis_of(extent, block);
    grid_stamps::stamp_count(Tiling {
        across: axis,
        down: axis,
    })
}

// Prints how many entries the tables of tile edges have.
fn print_entries() {
    let one = TILE_EDGES_1;
    let four = TILE_EDGES_4;
    figure(b"tile_edge_entries", &[1, one.len() as u64]);
    figure(b"tile_edge_entries", &[4, four.len() as u64]);
}

// Prints extents of levels and what was seen of their tiles.
pub fn print_extents() {
    print_extent(0, 0);
    print_extent(0, 14);
    print_extent(1, 0);
    print_extent(5, 1);
    print_extent(5, 2);
    print_extent(5, 3);
    print_extent(16384, 0);
    print_extent(16384, 13);
    print_extent(16384, 14);
    print_extent(16384, 15);
    print_tiles(1);
    print_tiles(4);
    print_entries();
    figure(b"most_stamps", &[stamps(16384, 1)]);
}
