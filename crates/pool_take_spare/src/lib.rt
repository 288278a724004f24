// The call `take_spare`, which starts a rename.
#![tactic(auto)]

mod answer;
mod calls;
mod check_take;
mod look_up;
mod take_newest;

pub use answer::TakeAnswer;
pub use calls::take_spare::take_spare;
