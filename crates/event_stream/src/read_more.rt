// Standard input, read in blocks.
ghost use Rattle.std.specs.Prelude.{◌≡◌, ◌≤◌, ◌<◌, length, take};
ghost use Rattle.event_feed.specs.FeedConstants.{kept_bytes};
ghost use Rattle.event_feed.specs.Places.{Placed};

use event_feed::FeedState;
use std::io::Read;

// Reads once, to the place after the `end` bytes that are there, and returns where the bytes now end. There is room, so nothing comes only
// where the input has ended or cannot be read.
fn read_after(input: &mut impl Read, buf: &mut [u8], end: usize) -> usize
    requires { end < length buf.old }
    ensures { (end ≤ result) × (result ≤ length buf.old) × (take end buf.new ≡ take end buf.old) }
{
    let got = input.read(&mut buf[end..]).unwrap_or(0);
    end + got
}

// Returns where the bytes to be fed end. Reads more only where none wait, so that a caller may ask line by line and wait for the answers.
pub fn read_more(input: &mut impl Read, buf: &mut [u8], at: FeedState) -> usize
    requires { Placed at (length buf.old) × (kept_bytes < length buf.old) }
    ensures { (at.end ≤ result) × (result ≤ length buf.old) × (take at.end buf.new ≡ take at.end buf.old) }
{
    let end = at.end;
    if at.from + at.held < end {
        return end;
    }
    read_after(input, buf, end)
}
