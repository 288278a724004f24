// Lists of lines run on lent memory, one after the other: each is lent as much as its first line asks for, all of it 0.
#![tactic(auto)]

mod lines;

pub use lines::run_all;
