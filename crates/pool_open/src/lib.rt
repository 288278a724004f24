// The pool to begin with (the Rust's `new`), and the test that lent slices have the sizes of one.
#![tactic(auto)]

mod calls;

pub use calls::open::{OpenAnswer, open, opened_book, opened_pool};
pub use calls::sizes_fit::{lengths_fit, sizes_fit};
