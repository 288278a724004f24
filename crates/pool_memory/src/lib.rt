// The pool as a caller holds it: the counts in `Pool` and the pacing book by value, everything else in six lent slices of
// numbers. Its specs say which pool of the model they stand for, what a call leaves in each slice, and what it takes to form a
// pool; its laws are what the calls are proved by.
#![tactic(auto)]

mod answer;
mod book;
mod constants;
mod pool;

pub use answer::{DoneAnswer, PoppedVersion, TakenVersion};
pub use book::PacingBook;
pub use constants::COPY_STRIDE;
pub use pool::{Pool, same_counts};
