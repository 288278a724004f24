// The texture version pool: what a caller names. Each call takes the pool and its pacing book by value and the six slices that
// the caller lends, and answers for any numbers in them: memory that forms no pool is refused with 1 and left as it is. To know
// that, a call tests all the memory that is in use, so it costs what that memory costs. The same calls without the test, for
// callers who are proved to pass a pool (or who keep the memory to themselves), are those of `pool_take_spare`, `pool_preserve_plan`, `pool_retire`,
// `pool_park`, `pool_note_write`, `pool_note_allocated`, `pool_take_doomed`, `pool_trim` and `pool_sheet`.
// Each call tests the memory by itself, in an `if`: a closure that is made only on a pool, given to one function that tests, would capture the slices by
// `&mut`, and where it is not called nothing says that they are left as they are, for an `FnOnce` has no clause on what it captured. The six slices stay
// parameters of each call, since a call lends by `&mut` only those that it writes.
#![tactic(auto)]

mod calls;

pub use calls::dirty_tile::dirty_tile;
pub use calls::drain_versions::drain_versions;
pub use calls::forget_texture::forget_texture;
pub use calls::note_allocated::note_allocated;
pub use calls::note_mip_regeneration::note_mip_regeneration;
pub use calls::note_write::note_write;
pub use calls::park::park;
pub use calls::parked_bytes::parked_bytes;
pub use calls::pending_destroy_bytes::pending_destroy_bytes;
pub use calls::pop_retired::pop_retired;
pub use calls::preserve_plan::preserve_plan;
pub use calls::print_sheet::print_sheet;
pub use calls::records_writes::records_writes;
pub use calls::retire::retire;
pub use calls::take_doomed::take_doomed;
pub use calls::take_spare::take_spare;
pub use calls::trim::trim;
pub use pool_open::{OpenAnswer, open};
