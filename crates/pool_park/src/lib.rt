// The call `park`: the version in the hand is kept as its texture's newest spare, or queued for destruction.
#![tactic(auto)]

mod calls;
mod counts;
mod keep_version;
mod park_or_destroy;

pub use calls::park::park;
