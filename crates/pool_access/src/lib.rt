// Access to the lent slices, one record or one run of them at a time. Every call of the pool is made of these.
#![tactic(auto)]

mod doomed;
mod grids;
mod records;
mod retiring;
mod slices;
mod spare;
mod starts;
mod texture;
mod tilings;

pub use doomed::{doomed_at, push_doomed};
pub use grids::{shape_grids, shape_stamps};
pub use retiring::{push_retiring, retiring_at};
pub use slices::{SliceTilings, slice_tilings};
pub use spare::{first_spare, insert_spare, spare_at, spares_before};
pub use starts::{grid_end, move_starts, stamp_end};
pub use texture::{has_id, insert_texture, put_texture, remove_texture, texture_at};
pub use tilings::{stamps_at, start_at, tiling_at};
