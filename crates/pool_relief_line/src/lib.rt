// Which spares relief picks, without sorting them: all that were parked before a line go, none parked after it, and of those at
// it as many as it takes, texture by texture in ascending id.
#![tactic(auto)]

mod gives;
mod line;

pub use gives::{Given, texture_gives};
pub use line::{bytes_before, parking_line, version_bytes};
