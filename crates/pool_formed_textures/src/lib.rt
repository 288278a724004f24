// Whether the tracked textures of lent memory are those of a pool, with their spares and write histories. A pass a condition over the
// lent slices, with an early return at the first that fails; the histories last, for they are most of the work.
#![tactic(auto)]

mod histories_fit;
mod records_fit;
mod runs_fit;
mod spares_fit;
mod textures;

pub use textures::textures_fit;
