// The calls that pace destruction, made with the pacing book lent: each lends a book of its own to the call of `pool_lent_pacing`, and
// answers as the call of `pool` does that takes the book by value.
#![tactic(auto)]

mod calls;

pub use calls::drain_versions::lend_drain_versions;
pub use calls::note_allocated::lend_note_allocated;
pub use calls::take_doomed::lend_take_doomed;
