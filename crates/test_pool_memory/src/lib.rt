// Lent memory as a list's lines have it: numbers put into the stores, and the whole of it kept, compared and dumped.
#![tactic(auto)]

mod counts;
mod dump;
mod kept;
mod put;
mod whole;

pub use put::{put_book, put_counts};
pub use whole::{dump_all, is_all_kept, keep_all, put_slices};
