// The call `trim`: the spares idle past the bound are given up, and idle textures are tracked no longer.
#![tactic(auto)]

mod calls;
mod look_at;
mod nothing_aged;
mod pass;

pub use calls::trim::trim;
