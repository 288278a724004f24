// The event program's lines run on the pool: one line, or all the whole lines of a block of input, to their output.
#![tactic(auto)]

mod line;
mod lines;
mod run;

pub use line::{RanLine, run_line};
pub use lines::run_lines;
pub use run::Run;
