// Blocks of numbers inside one lent slice: moved, filled, turned round and looked through. Its specs and laws have what every
// layer's definitions are made of: lists, sums, tests.
#![tactic(auto)]

mod block;
mod scan;

pub use block::{copy_in, fill, reverse, rotate, shift_down, shift_up};
pub use scan::{contains, largest_of, within};
