// A tracking that begins: for a texture that was not tracked, and again for one that was tracked with another shape. Both are cases
// of the call that starts a rename.
#![tactic(auto)]

mod begun;
mod blocks;
mod holding;
mod renewal;
mod start;
mod tilings;

pub use begun::NewTracking;
pub use renewal::renew_tracking;
pub use start::start_tracking;
