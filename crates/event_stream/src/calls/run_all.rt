// The lines of standard input run one after the other: each turn reads where nothing waits, feeds, and writes the turn's output.
ghost use Rattle.std.specs.Prelude.{◌≡◌, ◌≤◌, ◌<◌, length};
ghost use Rattle.event_sessions.specs.LentStores.{state_in, SameStores};
ghost use Rattle.event_runs.specs.Lines.{longest_answer};
ghost use Rattle.event_feed.specs.FeedConstants.{kept_bytes};
ghost use Rattle.event_stream.specs.Streams.{RunOf, reason_number};
ghost use Rattle.event_sessions.specs.Noted.{fresh_session};

use crate::calls::byte_count::byte_count;
use crate::calls::reason::{StopReason, is_full, reason};
use crate::calls::write_out::write_out;
use crate::read_more::read_more;
use event_feed::{begin, feed};
use event_sessions::{Session, Stores};
use std::io::Read;

#[derive(Clone, Copy)]
pub struct Stopped {
    pub why: StopReason,
    // Bytes read, lines run, bytes of output.
    pub read: u64,
    pub lines: u64,
    pub written: u64,
    // The pool as the lines left it; the rest is in the lent slices.
    pub session: Session,
}

// Runs all lines of standard input from a fresh session on, and writes their output where it is to be shown. A write that fails ends it, since
// no caller would see the answers after it.
// Asks to be part of its caller, which knows how long the lent stores are: a line then takes 4 % fewer instructions.
#[inline(always)]
pub fn run_all(
    input: &mut impl Read,
    buf: &mut [u8],
    stores: &mut Stores<'_>,
    out: &mut [u8],
    shown: bool,
) -> Stopped
    requires { (kept_bytes < length buf.old) × (longest_answer (length stores.old.copies.now) (length stores.old.views.now) ≤ length out.old) }
    ensures same { SameStores stores.old stores.new }
    ensures ran { RunOf (length stores.old.copies.now) (length stores.old.views.now) (length buf.old) (length out.old) (state_in fresh_session stores.old)
        (state_in result.session stores.new) (reason_number result.why) result.read result.lines result.written }
{
    let mut at = begin();
    let mut read = 0;
    let mut written = 0;
    loop {
        let end = read_more(input, buf, at);
        let came = end - (at.from + at.held);
        read += byte_count(end - at.end);
        at = feed(at, end, buf, stores, out);
        let wrote = write_out(&out[..at.filled], shown);
        written += byte_count(wrote.bytes);
        let full = is_full(read, buf.len(), written, out.len());
        if let Some(why) = reason(came, wrote.all, full) {
            return Stopped {
                why,
                read,
                lines: at.number,
                written,
                session: at.session,
            };
        }
    }
}
