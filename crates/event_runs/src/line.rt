// One line run.
ghost use Rattle.std.specs.Prelude.{◌≡◌, ◌+◌, ◌≤◌, length};
ghost use Rattle.std.proofs.lemmas.List.Edits.{sets};
ghost use Rattle.event_answers.specs.Answers.{reply_told, entries, InBuffers};
ghost use Rattle.event_answers.specs.Printed.{printed, most_bytes};
ghost use Rattle.event_sessions.specs.Sessions.{HoldsPool};
ghost use Rattle.event_sessions.specs.LentStores.{state_in, SameStores};
ghost use Rattle.event_runs.specs.Lines.{EventRan, longest_answer};

use event_answers::{Answer, put_answer};
use event_lines::Event;
use event_sessions::{Session, Stores, answer_event};

// What a line leaves: the session, and where its output ends.
#[derive(Clone, Copy)]
pub struct RanLine {
    pub session: Session,
    pub filled: usize,
}

// Puts the answer of line `number`, whose entries stand in the lent buffers, and returns where its output ends.
fn put_entries(out: &mut [u8], at: usize, number: u64, answer: Answer, stores: &Stores<'_>) -> usize
    requires { (at + most_bytes (entries answer) ≤ length out.old) × InBuffers answer stores.now.copies.now stores.now.views.now }
    ensures { (result ≡ at + length (printed number (reply_told answer stores.now.copies.now stores.now.views.now)))
        × (out.new ≡ sets out.old at (printed number (reply_told answer stores.now.copies.now stores.now.views.now))) }
{
    put_answer(out, at, number, answer, stores.copies, stores.views)
}

// Runs line `number`, which is this event. Puts its output after the `filled` bytes of `out`.
pub fn run_line(
    event: Event,
    number: u64,
    session: Session,
    stores: &mut Stores<'_>,
    out: &mut [u8],
    filled: usize,
) -> RanLine
    requires { HoldsPool (state_in session stores.old)
        × (filled + longest_answer (length stores.old.copies.now) (length stores.old.views.now) ≤ length out.old) }
    ensures same { SameStores stores.old stores.new }
    ensures ran { EventRan (length stores.old.copies.now) (length stores.old.views.now) number (state_in session stores.old) (state_in result.session stores.new)
        event filled result.filled out.old out.new }
{
    let answered = answer_event(session, stores, event);
    let end = put_entries(out, filled, number, answered.answer, stores);
    RanLine {
        session: answered.session,
        filled: end,
    }
}
