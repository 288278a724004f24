// The pool sheet: a page of text that a bench driver pins beside the rig (02, W-202).
#![tactic(auto)]

mod calls;
mod fields;
mod lines;

pub use calls::print_sheet::print_sheet;
