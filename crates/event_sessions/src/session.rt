// What the event program keeps between two lines.
ghost use Rattle.std.specs.Prelude.{◌≡◌};
ghost use Rattle.event_sessions.specs.Parts.{session_after};

use event_lines::Event;
use grid_shapes::VersionShape;
use pool_memory::{PacingBook, Pool};

// Holds what a line needs of those before it. The pool and its pacing book count once it is opened; everything else of the pool is in the lent slices. The shape is that of the
// latest take line, if one was taken since. `opened` and `taken` are 1 or 0: with an Option of the pool and its book and one of the shape a line takes 3.4 % more
// instructions (24.93 against 24.10 million for 44001 lines, by callgrind), since their tags leave padding that slows copies.
#[derive(Clone, Copy)]
pub struct Session {
    pub opened: u64,
    pub taken: u64,
    pub pool: Pool,
    pub book: PacingBook,
    pub shape: VersionShape,
}

// Returns the opened session after an event, with the pool and the book that its call left. A take line's shape is noted, whatever the call
// says.
#[tactic(auto, unfolding(crate::specs::Parts::session_after))]
pub fn session_after(
    taken: u64,
    latest: VersionShape,
    pool: Pool,
    book: PacingBook,
    event: Event,
) -> Session
    ensures { result ≡ session_after taken latest pool book event }
{
    match event {
        Event::Take { shape, .. } => Session {
            opened: 1,
            taken: 1,
            pool,
            book,
            shape,
        },
        _ => Session {
            opened: 1,
            taken,
            pool,
            book,
            shape: latest,
        },
    }
}
