// An input that comes in blocks of any size: each turn feeds a block to the lines that are run, and the turn in which no byte came runs a
// last line that lacks its line feed. No system call is made here.
#![tactic(auto)]

mod calls;
mod constants;
mod feed_state;
pub mod finish;
mod keep;
pub mod rest_of;

pub use calls::feed::feed;
pub use constants::KEPT_BYTES;
pub use feed_state::{FeedState, begin};
