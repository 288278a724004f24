// Numbers and text put into a buffer of bytes: what every page and every line of output is printed by.
#![tactic(auto)]

mod column;
mod digits;

pub use column::{put_blanks, put_right};
pub use digits::{put_number, put_text};
