// What a line is answered with.
use crate::reply::Reply;
use crate::session::{Session, after_event, with_counts, with_lends, with_shape};
use event_answers::Answer;
use event_lines::{Event, parse_first};
use test_pool_calls::{Called, make_event, make_query};
use test_pool_lines::OwnLine;

// The session after a line, and its reply, if something is printed.
#[derive(Clone, Copy)]
pub struct Answered {
    pub session: Session,
    pub reply: Option<Reply>,
}

// Opens the pool, if it is not opened yet.
fn answer_open(
    session: Session,
    textures: &[u64],
    retiring: &[u64],
    doomed: &[u64],
    spares: &[u64],
    newest: &[u64],
    stamps: &[u64],
    working: u64,
) -> Answered {
    if session.opened {
        return Answered {
            session,
            reply: Some(Reply::Event(Answer::Question)),
        };
    }
    let said = pool::open(working, textures, retiring, doomed, spares, newest, stamps);
    if let Err(refusal) = said.outcome {
        return Answered {
            session,
            reply: Some(Reply::Event(Answer::Refused(refusal.number()))),
        };
    }
    let pool = said.pool;
    let book = said.book;
    Answered {
        session: with_counts(session, pool, book),
        reply: Some(Reply::Event(Answer::Done)),
    }
}

// Returns what an event's call leaves.
fn answered_call(session: Session, event: Event, called: Called) -> Answered {
    let after = called.pool;
    let noted = called.book;
    let answer = called.answer;
    let next = with_counts(session, after, noted);
    Answered {
        session: after_event(next, event),
        reply: Some(Reply::Event(answer)),
    }
}

// Makes an event's call.
fn answer_call(
    session: Session,
    textures: &mut [u64],
    retiring: &mut [u64],
    doomed: &mut [u64],
    spares: &mut [u64],
    newest: &mut [u64],
    stamps: &mut [u64],
    copies: &mut [u64],
    views: &mut [u64],
    event: Event,
) -> Answered {
    if !session.opened {
        return Answered {
            session,
            reply: Some(Reply::Event(Answer::Question)),
        };
    }
    let pool = session.pool;
    let book = session.book;
    let shape = session.shape;
    let called = make_event(
        pool,
        book,
        textures,
        retiring,
        doomed,
        spares,
        newest,
        stamps,
        copies,
        views,
        session.lends,
        shape,
        event,
    );
    answered_call(session, event, called)
}

// Answers an event.
fn answer_event(
    session: Session,
    textures: &mut [u64],
    retiring: &mut [u64],
    doomed: &mut [u64],
    spares: &mut [u64],
    newest: &mut [u64],
    stamps: &mut [u64],
    copies: &mut [u64],
    views: &mut [u64],
    event: Event,
) -> Answered {
    match event {
        Event::Open(working) => answer_open(
            session, textures, retiring, doomed, spares, newest, stamps, working,
        ),
        _ => answer_call(
            session, textures, retiring, doomed, spares, newest, stamps, copies, views, event,
        ),
    }
}

// Answers a query. From the question whether the memory forms a pool on, calls are made.
fn answer_query(
    session: Session,
    textures: &[u64],
    retiring: &[u64],
    doomed: &[u64],
    spares: &[u64],
    newest: &[u64],
    stamps: &[u64],
    line: OwnLine,
) -> Answered {
    let pool = session.pool;
    let book = session.book;
    if !matches!(line, OwnLine::Formed) & !session.opened {
        return Answered {
            session,
            reply: Some(Reply::Event(Answer::Question)),
        };
    }
    let queried = make_query(
        pool, book, textures, retiring, doomed, spares, newest, stamps, line,
    );
    Answered {
        session: with_counts(session, pool, book),
        reply: Some(Reply::Query(queried)),
    }
}

// Answers a line that is no put and no dump.
pub fn answer_line(
    session: Session,
    textures: &mut [u64],
    retiring: &mut [u64],
    doomed: &mut [u64],
    spares: &mut [u64],
    newest: &mut [u64],
    stamps: &mut [u64],
    copies: &mut [u64],
    views: &mut [u64],
    own: Option<OwnLine>,
    text: &[u8],
) -> Answered {
    match own {
        Some(
            OwnLine::Take {
                id,
                shape,
                records,
                seq,
            },
        ) => answer_event(
            session,
            textures,
            retiring,
            doomed,
            spares,
            newest,
            stamps,
            copies,
            views,
            Event::Take {
                id,
                shape,
                records,
                seq,
            },
        ),
        None => {
            let parsed = parse_first(text);
            let event = parsed.event;
            answer_event(
                session, textures, retiring, doomed, spares, newest, stamps, copies, views, event,
            )
        }
        Some(OwnLine::Lend) => Answered {
            session: with_lends(session),
            reply: None,
        },
        Some(OwnLine::Shape(shape)) => Answered {
            session: with_shape(session, shape),
            reply: None,
        },
        Some(query) => answer_query(
            session, textures, retiring, doomed, spares, newest, stamps, query,
        ),
    }
}
