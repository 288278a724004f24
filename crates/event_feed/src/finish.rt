// The end of the input.
ghost use Rattle.std.specs.Prelude.{◌+◌, ◌≤◌, ◌<◌, ◌≡◌, length};
ghost use Rattle.event_feed.specs.Finish.{Filled};

// Returns where the bytes to be fed end: the `held` bytes from `from` on are a line that is not whole, and those after it, up to `end`,
// came. If none came the input has ended, and that line gets the line feed that it lacks, so that it is run as any other.
pub fn finish(buf: &mut [u8], from: usize, held: usize, end: usize) -> usize
    requires { (from + held ≤ end) × (end ≤ length buf.old) × (end ≡ from + held → end < length buf.old) }
    ensures { Filled from held end result buf.old buf.new }
{
    if from + held < end {
        return end;
    }
    if held == 0 {
        return end;
    }
    buf[end] = b'\n';
    end + 1
}
