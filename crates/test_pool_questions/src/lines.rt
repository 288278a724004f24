// Lines, one after the other.
use crate::line::run_line;
use event_sessions::{Stores, fresh};
use test_common::part_end;

// Runs all lines. The last may lack its line feed, and after one that has it there is none.
pub fn run_lines(input: &[u8], stores: &mut Stores<'_>, page: &mut [u8]) {
    let mut session = fresh();
    let mut number = 0;
    let mut from = 0;
    // Lines have no fixed length, so no range says where the next one begins.
    while from < input.len() {
        let end = part_end(input, from, b'\n');
        let ran = run_line(&input[from..end], number + 1, session, stores, page);
        session = ran.session;
        number = ran.number;
        from = end + 1;
    }
}
