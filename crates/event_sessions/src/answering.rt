// What a line's event is answered with.
ghost use Rattle.std.specs.Prelude.{◌≡◌, length};
ghost use Rattle.event_answers.specs.Answers.{reply_told, InBuffers};
ghost use Rattle.event_sessions.specs.Sessions.{HoldsPool, line_step};
ghost use Rattle.event_sessions.specs.LentStores.{state_in, SameStores};

use crate::answered::Answered;
use crate::call_event::call_event;
use crate::opening::answer_unopened;
use crate::session::{Session, session_after};
use crate::stores::Stores;
use event_lines::Event;

// Answers a line's event. The session after it comes with the answer; everything else is in the slices.
pub fn answer_event(session: Session, stores: &mut Stores<'_>, event: Event) -> Answered
    requires { HoldsPool (state_in session stores.old) }
    ensures same { SameStores stores.old stores.new }
    ensures answered { InBuffers result.answer stores.new.copies.now stores.new.views.now
        × ((reply_told result.answer stores.new.copies.now stores.new.views.now, state_in result.session stores.new)
        ≡ line_step (length stores.old.copies.now) (length stores.old.views.now) (state_in session stores.old) event) }
{
    if session.opened != 1 {
        return answer_unopened(session, stores, event);
    }
    let called = call_event(
        session.pool,
        session.book,
        stores.textures,
        stores.retiring,
        stores.doomed,
        stores.spares,
        stores.newest,
        stores.stamps,
        stores.copies,
        stores.views,
        session.taken == 1,
        session.shape,
        event,
    );
    Answered {
        session: session_after(
            session.taken,
            session.shape,
            called.pool,
            called.book,
            event,
        ),
        answer: called.answer,
    }
}
