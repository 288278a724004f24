// A list given in parts, as standard input is read in blocks.
ghost use Rattle.std.specs.Prelude.{◌≡◌, ◌-◌, ◌≤◌, ◌<◌, length, take};
ghost use Rattle.event_feed.specs.Places.{Placed};

use crate::constants::PART_SIZES;
use event_feed::FeedState;

// Returns how many bytes of a list of `bytes` are given after the first `given`: another size each time, so that lines are cut everywhere.
fn part_size(bytes: usize, given: usize) -> usize
    requires { given ≤ bytes }
    ensures { result ≤ bytes - given }
{
    let left = bytes - given;
    left.min(1 + left % PART_SIZES)
}

// Copies `size` bytes of the list, after the first `given`, to the place after the `end` bytes of the buffer.
fn copy_part(list: &[u8], given: usize, buf: &mut [u8], end: usize, size: usize)
    requires { (given ≤ length list.now) × (size ≤ length list.now - given) × (end ≤ length buf.old) × (size ≤ length buf.old - end) }
    ensures { take end buf.new ≡ take end buf.old }
{
    buf[end..end + size].copy_from_slice(&list[given..given + size]);
}

// Returns where the bytes to be fed end. Gives more of the list only where none wait, as `read_more` of crates/event_stream does.
pub fn next_part(list: &[u8], given: usize, buf: &mut [u8], at: FeedState) -> usize
    requires { (given ≤ length list.now) × Placed at (length buf.old) }
    ensures { (at.end ≤ result) × (result ≤ length buf.old) × (result - at.end ≤ length list.now - given)
        × (take at.end buf.new ≡ take at.end buf.old) }
{
    let end = at.end;
    if at.from + at.held < end {
        return end;
    }
    let size = part_size(list.len(), given).min(buf.len() - end);
    copy_part(list, given, buf, end, size);
    end + size
}
