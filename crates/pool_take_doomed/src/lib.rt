// Versions on their way out: spares queued for destruction, and the two calls that hand versions back to be destroyed.
#![tactic(auto)]

mod answer;
mod calls;
mod copy_column;
mod given;
mod next_batch;

pub use answer::DrainAnswer;
pub use calls::drain_versions::drain_versions;
pub use calls::take_doomed::take_doomed;
pub use given::push_spares;
