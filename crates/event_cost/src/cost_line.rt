// One line run, and what its plan costs.
ghost use Rattle.std.specs.Prelude.{◌+◌, ◌≤◌, length};
ghost use Rattle.event_sessions.specs.Sessions.{HoldsPool};
ghost use Rattle.event_sessions.specs.LentStores.{state_in, SameStores};
ghost use Rattle.event_cost.specs.Costs.{most_cost_row};
ghost use Rattle.event_cost.specs.Lines.{EventCosted};

use crate::copy_count::copy_count;
use crate::plan_cost::plan_cost;
use crate::put_cost::put_cost;
use crate::sums::{Sums, add_sums};
use event_lines::Event;
use event_sessions::{Session, Stores, answer_event};

// What a line leaves: the session, the sums with its cost, and where its output ends.
#[derive(Clone, Copy)]
pub struct CostedLine {
    pub session: Session,
    pub sums: Sums,
    pub filled: usize,
}

// Runs line `number`, which is this event, and adds what it costs to the sums. Puts its output after the `filled` bytes of `out`. A plan
// leaves the latest take line's shape as it was, so the copies go by the shape before the line.
pub fn cost_line(
    event: Event,
    number: u64,
    sums: Sums,
    session: Session,
    stores: &mut Stores<'_>,
    out: &mut [u8],
    filled: usize,
) -> CostedLine
    requires { HoldsPool (state_in session stores.old) × (filled + most_cost_row ≤ length out.old) }
    ensures same { SameStores stores.old stores.new }
    ensures costed { EventCosted (length stores.old.copies.now) (length stores.old.views.now) number (state_in session stores.old) (state_in result.session stores.new)
        event sums result.sums filled result.filled out.old out.new }
{
    let answered = answer_event(session, stores, event);
    let cost = plan_cost(session.shape, stores.copies, copy_count(answered.answer));
    let end = put_cost(out, filled, number, event, answered.answer, cost.moved);
    CostedLine {
        session: answered.session,
        sums: add_sums(sums, cost),
        filled: end,
    }
}
