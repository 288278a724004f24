// The lines of a list for lent memory that the event grammar lacks: numbers put into a store, shapes of twelve numbers, queries.
#![tactic(auto)]

mod fields;
mod line;
mod shape;
mod sizes;

pub use fields::MOST_FIELDS;
pub use line::{OwnLine, OwnRead, read_own};
pub use sizes::{Lengths, lengths_of};
