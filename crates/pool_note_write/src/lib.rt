// A texture's reported writes: the two calls that count and stamp them, and the two questions that their history answers.
#![tactic(auto)]

mod calls;
mod dropping;
mod history;

pub use calls::dirty_tile::dirty_tile;
pub use calls::note_mip_regeneration::note_mip_regeneration;
pub use calls::note_write::note_write;
pub use calls::records_writes::records_writes;
