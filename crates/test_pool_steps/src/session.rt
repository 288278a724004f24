// What the program keeps between two lines.
use event_lines::Event;
use grid_shapes::VersionShape;
use pool_memory::{PacingBook, Pool};
use pool_open::opened_book;
use test_pool_lines::Lengths;

// Everything but the slices. Calls are made once the pool is opened, or numbers were put, or it was asked whether they form one; until then
// a line that calls is answered as the event program does.
#[derive(Clone, Copy)]
pub struct Session {
    // No Option of the pool: numbers are put into its counts before calls are made too.
    pub opened: bool,
    // The pacing book is lent.
    pub lends: bool,
    // Lines run so far in this list.
    pub number: u64,
    pub pool: Pool,
    pub book: PacingBook,
    // The shape that came last, by a take or alone.
    pub shape: Option<VersionShape>,
    pub lengths: Lengths,
}

// Returns counts of nothing.
fn no_pool() -> Pool {
    Pool {
        tracked: 0,
        kept: 0,
        grids: 0,
        stamps: 0,
        head: 0,
        popped: 0,
        queued: 0,
        first: 0,
        doomed: 0,
        since: 0,
        trackings: 0,
        parked: 0,
        dooming: 0,
        cap: 0,
        line: 0,
    }
}

// Returns the session that a list begins with.
pub fn fresh(lengths: Lengths) -> Session {
    Session {
        opened: false,
        lends: false,
        number: 0,
        pool: no_pool(),
        book: opened_book(),
        shape: None,
        lengths,
    }
}

// Returns the session with another line counted.
pub fn next_line(session: Session) -> Session {
    Session {
        number: session.number.saturating_add(1),
        ..session
    }
}

// Returns the session with these counts and this book. Calls are made from here on.
pub fn with_counts(session: Session, pool: Pool, book: PacingBook) -> Session {
    Session {
        opened: true,
        pool,
        book,
        ..session
    }
}

// Returns the session with the shape that plans go by from here on.
pub fn with_shape(session: Session, shape: VersionShape) -> Session {
    Session {
        shape: Some(shape),
        ..session
    }
}

// Returns the session in which the pacing book is lent.
pub fn with_lends(session: Session) -> Session {
    Session {
        lends: true,
        ..session
    }
}

// Returns the session after an event's call: a take's shape is noted, whatever the call said.
pub fn after_event(session: Session, event: Event) -> Session {
    match event {
        Event::Take { shape, .. } => with_shape(session, shape),
        _ => session,
    }
}
