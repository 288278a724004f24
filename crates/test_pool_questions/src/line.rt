// One line run: an event, a question, or the beginning of a list.
ghost use Rattle.std.specs.Prelude.{◌≤◌};
ghost use Rattle.event_sessions.specs.Sessions.{HoldsPool};
ghost use Rattle.event_sessions.specs.LentStores.{state_in, SameStores};

use crate::question::answer_question;
use event_lines::parse_first;
use event_sessions::{Session, Stores, answer_event, fresh};
use event_text::is_word;
use test_common::{STDOUT_FILENO, part_end};

// What a line leaves: the session, and the lines of the list so far.
#[derive(Clone, Copy)]
pub struct RanLine {
    pub session: Session,
    pub number: u64,
}

// Runs line `number` of its list. An event prints nothing, whatever it is answered with. The line that begins a list is printed and not
// counted.
pub fn run_line(
    line: &[u8],
    number: u64,
    session: Session,
    stores: &mut Stores<'_>,
    page: &mut [u8],
) -> RanLine
    requires { HoldsPool (state_in session stores.old) }
    ensures same { SameStores stores.old stores.new }
    ensures holds { HoldsPool (state_in result.session stores.new) × (result.number ≤ number) }
{
    let end = part_end(line, 0, b',');
    if is_word(&line[0..end], b"=") {
        io::write_all(STDOUT_FILENO, line);
        io::write_all(STDOUT_FILENO, b"\n");
        return RanLine {
            session: fresh(),
            number: 0,
        };
    }
    if is_word(&line[0..end], b"sheet") {
        answer_question(&line[end..], number, session, stores, page);
        return RanLine { session, number };
    }
    let parsed = parse_first(line);
    let answered = answer_event(session, stores, parsed.event);
    RanLine {
        session: answered.session,
        number,
    }
}
