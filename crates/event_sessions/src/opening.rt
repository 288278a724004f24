// `open`, and every other event before it.
ghost use Rattle.std.specs.Prelude.{◌≡◌, false, eqb};
ghost use Rattle.event_sessions.specs.Sessions.{opens};
ghost use Rattle.event_sessions.specs.LentStores.{state_in};
ghost use Rattle.event_sessions.specs.Parts.{SaysOnly, AnsweredAlone};

use crate::answered::Answered;
use crate::session::Session;
use crate::stores::Stores;
use event_answers::Answer;
use event_lines::Event;

// Opens the pool. Lent memory that is too small or too large for one is refused with 1.
fn open_session(session: Session, stores: &Stores<'_>, working: u64) -> Answered
    ensures { SaysOnly result.answer
        (state_in result.session stores.now)
        (opens (state_in session stores.now) working) }
{
    let said = pool_open::open(
        working,
        stores.textures,
        stores.retiring,
        stores.doomed,
        stores.spares,
        stores.newest,
        stores.stamps,
    );
    match said.outcome {
        Ok(()) => Answered {
            session: Session {
                opened: 1,
                pool: said.pool,
                book: said.book,
                ..session
            },
            answer: Answer::Done,
        },
        Err(refusal) => Answered {
            session,
            answer: Answer::Refused(refusal.number()),
        },
    }
}

// Answers an event before the pool is opened: `open` opens it, and no other makes a call.
pub fn answer_unopened(session: Session, stores: &Stores<'_>, event: Event) -> Answered
    requires { eqb session.opened 1 ≡ false }
    ensures { AnsweredAlone result.answer
        (state_in result.session stores.now)
        (state_in session stores.now) event }
{
    match event {
        Event::Open(working) => open_session(session, stores, working),
        _ => Answered {
            session,
            answer: Answer::Question,
        },
    }
}
