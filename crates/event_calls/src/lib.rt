// Each call of the pool, on memory that forms one, with what it says as the answer of a line.
#![tactic(auto)]

mod answers;
mod called;
mod calls;

pub use called::Called;
pub use calls::drain_versions::call_drain_versions;
pub use calls::forget_texture::call_forget_texture;
pub use calls::note_allocated::call_note_allocated;
pub use calls::note_mip_regeneration::call_note_mip_regeneration;
pub use calls::note_write::call_note_write;
pub use calls::park::call_park;
pub use calls::pop_retired::call_pop_retired;
pub use calls::preserve_plan::call_preserve_plan;
pub use calls::retire::call_retire;
pub use calls::take_doomed::call_take_doomed;
pub use calls::take_spare::call_take_spare;
pub use calls::trim::call_trim;
