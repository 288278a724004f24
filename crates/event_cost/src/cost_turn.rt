// One turn.
ghost use Rattle.std.specs.Prelude.{length};
ghost use Rattle.event_sessions.specs.LentStores.{state_in, SameStores};
ghost use Rattle.event_cost.specs.Runs.{TurnReady, TurnCosted};

use crate::cost_lines::cost_lines;
use crate::sums::Sums;
use event_feed::FeedState;
use event_feed::finish::finish;
use event_feed::rest_of::rest_of;
use event_sessions::Stores;

// What a turn leaves, and what its lines cost.
#[derive(Clone, Copy)]
pub struct CostedTurn {
    pub at: FeedState,
    pub sums: Sums,
}

// Runs the whole lines of the bytes that wait in the buffer and of those that came after them, up to `end`, as far as `out` has room for their
// output. If there are none the input has ended, and a last line without a line feed is run.
pub fn cost_turn(
    before: FeedState,
    end: usize,
    buf: &mut [u8],
    stores: &mut Stores<'_>,
    out: &mut [u8],
) -> CostedTurn
    requires { TurnReady before end (state_in before.session stores.old) buf.old out.old }
    ensures same { SameStores stores.old stores.new }
    ensures costed { TurnCosted (length stores.old.copies.now) (length stores.old.views.now) before end (state_in before.session stores.old)
        (state_in result.at.session stores.new) result buf.old buf.new out.old out.new }
{
    let from = before.from;
    let to = finish(buf, from, before.held, end);
    let run = cost_lines(&buf[from..to], before.number, before.session, stores, out);
    let place = rest_of(buf, from, to, run.from);
    CostedTurn {
        at: FeedState {
            session: run.session,
            number: run.number,
            from: place.from,
            held: place.held,
            end: place.end,
            filled: run.filled,
        },
        sums: run.sums,
    }
}
