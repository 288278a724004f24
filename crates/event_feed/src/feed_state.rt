// What is carried from one turn to the next, and where its bytes stand in the buffer.
ghost use Rattle.std.specs.Prelude.{◌≡◌};
ghost use Rattle.event_sessions.specs.Noted.{fresh_session};

use event_sessions::{Session, fresh};

#[derive(Clone, Copy)]
pub struct FeedState {
    pub session: Session,
    // Lines run so far.
    pub number: u64,
    // Where the bytes begin that are kept of a line that is not whole yet, and how many they are.
    pub from: usize,
    pub held: usize,
    // Where the bytes after them end, which came and wait to be fed.
    pub end: usize,
    // The latest turn's output is this many bytes, at the front of its buffer.
    pub filled: usize,
}

// Returns what there is before the first turn: nothing is opened, and no line has been run.
pub fn begin() -> FeedState
    ensures { result ≡ record { session = fresh_session; number = 0; from = 0; held = 0; end = 0; filled = 0 } }
{
    FeedState {
        session: fresh(),
        number: 0,
        from: 0,
        held: 0,
        end: 0,
        filled: 0,
    }
}
