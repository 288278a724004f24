// What the test programs have in common: the parts of a text, numbers put into a line of output, and shapes.
#![tactic(auto)]

mod descriptors;
mod numbers;
mod parts;
mod shape;

pub use descriptors::{STDIN_FILENO, STDOUT_FILENO};
pub use numbers::{put_after, put_digits};
pub use parts::part_end;
pub use shape::plain_shape;
