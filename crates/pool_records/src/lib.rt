// The records that the pool's lent slices hold. A record is a struct by value; `Record` reads it from the front of a slice of numbers and
// returns its numbers, so that the order of the numbers stands in one place a type.
#![tactic(auto)]

mod constants;
mod doomed;
mod find;
mod held;
mod record;
mod recorded;
mod retiring;
mod shift;
mod spare;
mod texture;
mod tiling;

pub use constants::{
    DOOMED_BYTES_AT, DOOMED_STRIDE, RETIRING_STRIDE, SPARE_HELD_AT, SPARE_PARKED_AT, SPARE_STRIDE,
    TEXTURE_BYTES_AT, TEXTURE_DUE_AT, TEXTURE_GRID_AT, TEXTURE_HISTORY_AT, TEXTURE_KIND_AT,
    TEXTURE_LEVELS_AT, TEXTURE_RENAME_AT, TEXTURE_SPARES_AT, TEXTURE_STAMP_AT, TEXTURE_STRIDE,
};
pub use doomed::DoomedRecord;
pub use find::find_texture;
pub use record::Record;
pub use retiring::RetiringRecord;
pub use shift::Shift;
pub use spare::SpareRecord;
pub use texture::TextureRecord;
pub use tiling::{GridTiling, read_tiling, tiling_number};
