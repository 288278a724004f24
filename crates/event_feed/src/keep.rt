// What is kept of a line that is not whole yet.
ghost use Rattle.std.specs.Prelude.{◌≡◌, ◌+◌, ◌-◌, ◌≤◌, ◌<◌, min, length, take};
ghost use Rattle.event_feed.specs.FeedConstants.{kept_bytes};
ghost use Rattle.event_feed.specs.Places.{part};

use crate::constants::KEPT_BYTES;

// Moves the first bytes of the line from `from` to `end` to the front of the buffer, so that there is room to read the rest of it.
// Returns how many they are.
pub fn keep(buf: &mut [u8], from: usize, end: usize) -> usize
    requires { (from ≤ end) × (end ≤ length buf.old) × (kept_bytes < length buf.old) }
    ensures { (result ≡ min (end - from) kept_bytes)
        × (take result buf.new ≡ take kept_bytes (part from (end - from) buf.old)) }
{
    let kept = (end - from).min(KEPT_BYTES);
    buf.copy_within(from..from + kept, 0);
    kept
}
