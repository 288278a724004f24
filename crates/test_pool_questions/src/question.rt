// What a question asks for.
ghost use Rattle.std.specs.Prelude.{◌≤◌, IfSome};

use crate::answer_sheet::answer_sheet;
use event_sessions::{Session, Stores};
use event_text::number_of;
use test_common::STDOUT_FILENO;

// Returns the bytes of the buffer that is asked for: what stands after the word is a comma and a number up to `most`. A second number is malformed too,
// since a comma is no digit.
fn asked_bytes(fields: &[u8], most: usize) -> Option<usize>
    ensures { IfSome result (λ bytes. bytes ≤ most) }
{
    let bytes = number_of(fields.get(1..)?)?;
    if bytes <= most as u64 {
        Some(bytes as usize)
    } else {
        None
    }
}

// Answers line `number`, in which `fields` stand after the word. What is malformed, or comes before an accepted `open`, is no question.
pub fn answer_question(
    fields: &[u8],
    number: u64,
    session: Session,
    stores: &Stores<'_>,
    page: &mut [u8],
) {
    io::print_decimal(STDOUT_FILENO, number);
    let asked = if session.opened == 1 {
        asked_bytes(fields, page.len())
    } else {
        None
    };
    let Some(bytes) = asked else {
        io::write_all(STDOUT_FILENO, b",?\n");
        return;
    };
    answer_sheet(session.pool, session.book, stores, &mut page[0..bytes]);
}
