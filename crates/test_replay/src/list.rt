// One list, run on a pool of its own.
ghost use Rattle.std.specs.Prelude.{◌≤◌, ◌<◌, ◌≡◌, length};
ghost use Rattle.event_sessions.specs.LentStores.{SameStores};
ghost use Rattle.event_runs.specs.Lines.{longest_answer};
ghost use Rattle.event_feed.specs.FeedConstants.{kept_bytes};

use crate::parts::next_part;
use event_feed::{begin, feed};
use event_sessions::Stores;
use event_stream::{byte_count, is_full, reason, write_out};

// Runs the lines of a list from a fresh session on, in turns as `run_all` of crates/event_stream does with standard input, and writes
// their output.
pub fn run_list(list: &[u8], buf: &mut [u8], stores: &mut Stores<'_>, out: &mut [u8])
    requires { (kept_bytes < length buf.old) × (longest_answer (length stores.old.copies.now) (length stores.old.views.now) ≤ length out.old) }
    ensures { SameStores stores.old stores.new }
{
    let mut at = begin();
    let mut given = 0;
    let mut written = 0;
    loop {
        let end = next_part(list, given, buf, at);
        let came = end - (at.from + at.held);
        given += end - at.end;
        at = feed(at, end, buf, stores, out);
        let wrote = write_out(&out[..at.filled], true);
        written += byte_count(wrote.bytes);
        let full = is_full(byte_count(given), buf.len(), written, out.len());
        if reason(came, wrote.all, full).is_some() {
            return;
        }
    }
}
