// The calls that pace destruction, with the pacing book lent: each reads the book, asks the call of `pool` that takes it by value,
// and puts the book of the answer in its place.
#![tactic(auto)]

mod answer;
mod calls;

pub use answer::HandedAnswer;
pub use calls::drain_versions::drain_versions;
pub use calls::note_allocated::note_allocated;
pub use calls::take_doomed::take_doomed;
