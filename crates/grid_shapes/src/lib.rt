// Formats, levels, shapes and their bytes.
//
// Functions for callers outside the pool have no `requires` and answer or refuse every input: `is_shape`, `same_shape`,
// `slices`, `level_extent`, `level_depth`, `bytes` and `records_every_write`. `shape_bytes` is the pool's own.
#![tactic(auto)]

mod constants;
mod format;
mod recording;
mod refusal;
mod shape;

pub use constants::MOST_SHAPE_BYTES;
pub use format::{block_bytes, block_edge};
pub use recording::records_every_write;
pub use refusal::Refusal;
pub use shape::{
    VersionShape, bytes, is_shape, level_depth, level_extent, same_shape, shape_bytes, slices,
};
