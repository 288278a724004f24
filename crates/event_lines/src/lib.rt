// The lines of the event program: one line of bytes, without its line feed, to the event that it is.
#![tactic(auto)]

mod event;
mod fields;
mod line;
mod words;

pub use event::{Event, Word};
pub use line::{Parsed, parse_first};
