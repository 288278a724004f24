// One axis of a level cut into tiles. A grid is made of two of them, and every fact of boxes and covers is proved here, per axis.
#![tactic(auto)]

mod axis;
mod constants;
mod edges;
mod tables;

pub use axis::{Axis, Span, span_size, span_start, tiles, touched_tiles};
pub use constants::{EDGE_ENTRIES, MAX_TILES_PER_AXIS, MIN_TILE_TEXELS};
pub use edges::{axis_in, axis_of, table_edge, tile_edge};
pub use tables::block_1::TILE_EDGES_1;
pub use tables::block_4::TILE_EDGES_4;
