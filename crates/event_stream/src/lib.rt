// The lines of standard input run on the pool, to standard output, on stores of any size: what the event programs do.
#![tactic(auto)]

mod calls;
pub mod read_more;

pub use calls::byte_count::byte_count;
pub use calls::reason::{StopReason, is_full, reason};
pub use calls::run_all::{Stopped, run_all};
pub use calls::write_out::{Wrote, write_out};
