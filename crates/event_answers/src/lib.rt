// The answers of the event program: what a line is answered with, and its lines of output.
#![tactic(auto)]

mod answer;
mod entry;
mod output;
mod row;

pub use answer::Answer;
pub use output::put_answer;
pub use row::{put_accepted, put_field, put_row};
