// The call `forget_texture`, and what it takes to leave a texture out of the lent slices: what it owns, and what stands behind it
// moved down.
#![tactic(auto)]

mod calls;
mod moves;
mod owned;

pub use calls::forget_texture::forget_texture;
pub use moves::move_down;
