// The way of a replaced version into the pool's hand: queued by `retire`, and taken by `pop_retired` once the GPU is done with it.
#![tactic(auto)]

mod calls;
mod counts;

pub use calls::pop_retired::{PopAnswer, pop_retired};
pub use calls::retire::retire;
