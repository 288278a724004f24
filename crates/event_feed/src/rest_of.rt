// What is left in the buffer when lines of it were run.
ghost use Rattle.std.specs.Prelude.{◌+◌, ◌≤◌, ◌<◌, length};
ghost use Rattle.event_feed.specs.FeedConstants.{kept_bytes};
ghost use Rattle.event_feed.specs.RestOf.{RestOf};

use crate::keep::keep;

// Where the next bytes stand, as in `FeedState`.
#[derive(Clone, Copy)]
pub struct Place {
    pub from: usize,
    pub held: usize,
    pub end: usize,
}

// Returns what is left of the bytes from `from` to `end`, of which the first `ran` were run. If none were, they are a line that is not
// whole yet. If all were, the next bytes are read to the front of the buffer, where there is room.
pub fn rest_of(buf: &mut [u8], from: usize, end: usize, ran: usize) -> Place
    requires { (from + ran ≤ end) × (end ≤ length buf.old) × (kept_bytes < length buf.old) }
    ensures { RestOf from end ran result buf.old buf.new }
{
    if ran == 0 {
        let kept = keep(buf, from, end);
        return Place {
            from: 0,
            held: kept,
            end: kept,
        };
    }
    if from + ran < end {
        return Place {
            from: from + ran,
            held: 0,
            end,
        };
    }
    Place {
        from: 0,
        held: 0,
        end: 0,
    }
}
