// One turn.
ghost use Rattle.std.specs.Prelude.{◌-◌, length};
ghost use Rattle.event_sessions.specs.LentStores.{state_in, SameStores};
ghost use Rattle.event_feed.specs.Places.{carried_in, fed_at, waits, Placed, Ready, Turn};

use crate::feed_state::FeedState;
use crate::finish::finish;
use crate::rest_of::rest_of;
use event_runs::run_lines;
use event_sessions::Stores;

// Feeds the bytes that wait in the buffer and those that came after them, up to `end`, as far as `out` has room for the output. If there
// are none the input has ended, and a last line without a line feed is run.
// Asks to be part of its caller, which knows how long the lent stores are: a line then takes 4 % fewer instructions.
#[inline(always)]
pub fn feed(
    before: FeedState,
    end: usize,
    buf: &mut [u8],
    stores: &mut Stores<'_>,
    out: &mut [u8],
) -> FeedState
    requires { Ready (length stores.old.copies.now) (length stores.old.views.now) before end (state_in before.session stores.old) buf.old out.old }
    ensures same { SameStores stores.old stores.new }
    ensures turn { Turn (length stores.old.copies.now) (length stores.old.views.now) (carried_in before stores.old buf.old) (carried_in result stores.new buf.new)
        (fed_at before end buf.old) (waits result buf.new) result.filled out.old out.new }
    ensures placed { Placed result (length buf.old) }
{
    let from = before.from;
    let to = finish(buf, from, before.held, end);
    let run = run_lines(&buf[from..to], before.number, before.session, stores, out);
    let place = rest_of(buf, from, to, run.from);
    FeedState {
        session: run.session,
        number: run.number,
        from: place.from,
        held: place.held,
        end: place.end,
        filled: run.filled,
    }
}
