// The lines of standard input run one after the other: each turn reads where nothing waits, runs lines, and writes the turn's output.
ghost use Rattle.std.specs.Prelude.{◌≤◌, ◌<◌, length};
ghost use Rattle.event_sessions.specs.LentStores.{state_in, SameStores};
ghost use Rattle.event_sessions.specs.Noted.{fresh_session};
ghost use Rattle.event_feed.specs.FeedConstants.{kept_bytes};
ghost use Rattle.event_stream.specs.Streams.{reason_number};
ghost use Rattle.event_cost.specs.Costs.{most_cost_row};
ghost use Rattle.event_cost.specs.Runs.{CostRun};

use crate::cost_turn::cost_turn;
use crate::sums::{Sums, add_sums};
use event_feed::begin;
use event_sessions::{Session, Stores};
use event_stream::read_more::read_more;
use event_stream::{StopReason, byte_count, is_full, reason, write_out};
use std::io::Read;

// What a run leaves.
#[derive(Clone, Copy)]
pub struct CostedRun {
    pub why: StopReason,
    // Bytes read, lines run, bytes of output.
    pub read: u64,
    pub lines: u64,
    pub written: u64,
    // What all lines cost.
    pub sums: Sums,
    // The pool as the lines left it; the rest is in the lent slices.
    pub session: Session,
}

// Runs all lines of standard input from a fresh session on, writes the lines of the plans among them, and sums what these cost. A write that
// fails ends it, since no caller would see the lines after it.
pub fn cost_all(
    input: &mut impl Read,
    buf: &mut [u8],
    stores: &mut Stores<'_>,
    out: &mut [u8],
) -> CostedRun
    requires { (kept_bytes < length buf.old) × (most_cost_row ≤ length out.old) }
    ensures same { SameStores stores.old stores.new }
    ensures costed { CostRun (length stores.old.copies.now) (length stores.old.views.now) (state_in fresh_session stores.old) (state_in result.session stores.new)
        result.sums (reason_number result.why) result.read result.lines result.written }
{
    let mut at = begin();
    let mut sums = Sums { moved: 0, whole: 0 };
    let mut read = 0;
    let mut written = 0;
    loop {
        let end = read_more(input, buf, at);
        let came = end - (at.from + at.held);
        read += byte_count(end - at.end);
        let turn = cost_turn(at, end, buf, stores, out);
        at = turn.at;
        sums = add_sums(sums, turn.sums);
        let wrote = write_out(&out[..at.filled], true);
        written += byte_count(wrote.bytes);
        let full = is_full(read, buf.len(), written, out.len());
        if let Some(why) = reason(came, wrote.all, full) {
            return CostedRun {
                why,
                read,
                lines: at.number,
                written,
                sums,
                session: at.session,
            };
        }
    }
}
