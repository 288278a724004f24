// One subresource's stamp grid: a page of stamps, a stamp for each tile. The functions are the pool's own and say what they
// require; a page is here the grid's own part of the lent stamps.
#![tactic(auto)]

mod constants;
mod dirty;
mod grid;
mod newest;
mod since;
mod stamping;

pub use constants::PAGE_STAMPS;
pub use dirty::dirty_tile;
pub use grid::{Tile, Tiling, stamp_count, tiling_in};
pub use newest::{is_largest_stamp, largest_stamp};
pub use since::written_since;
pub use stamping::stamp;
