// The whole lines of a block of input, run as long as the output has room.
ghost use Rattle.std.specs.Prelude.{◌+◌, ◌^◌, ◌<◌, length};
ghost use Rattle.event_sessions.specs.Sessions.{HoldsPool};
ghost use Rattle.event_sessions.specs.LentStores.{state_in, SameStores};
ghost use Rattle.event_cost.specs.Lines.{cost_progress_in, LinesCosted};

use crate::cost_line::cost_line;
use crate::sums::Sums;
use event_lines::parse_first;
use event_sessions::{Session, Stores};

// The most bytes of a line of output, as `most_cost_row` of specs/Costs.antt.
const MOST_ROW: usize = 44;

// How far an input was run.
#[derive(Clone, Copy)]
pub struct CostedLines {
    pub session: Session,
    // What the lines cost.
    pub sums: Sums,
    // Lines run so far.
    pub number: u64,
    // Bytes of the input before the next line.
    pub from: usize,
    // Bytes of output in the buffer.
    pub filled: usize,
}

// Runs the whole lines of `input`, `number` lines having been run before, and puts their output at the front of `out`. Stops where
// `out` has no room for a line of output, so that no line is run whose output does not fit.
pub fn cost_lines(
    input: &[u8],
    number: u64,
    session: Session,
    stores: &mut Stores<'_>,
    out: &mut [u8],
) -> CostedLines
    requires { HoldsPool (state_in session stores.old) × (number + length input.now < 2 ^ 64) }
    ensures same { SameStores stores.old stores.new }
    ensures costed { LinesCosted (length stores.old.copies.now) (length stores.old.views.now) input.now number (state_in session stores.old) out.old
        (cost_progress_in result stores.new out.new) }
{
    let size = out.len();
    let mut run = CostedLines {
        session,
        sums: Sums { moved: 0, whole: 0 },
        number,
        from: 0,
        filled: 0,
    };
    // Each line's own length and output say how far a turn goes, so no range counts the turns.
    while MOST_ROW <= size - run.filled {
        let parsed = parse_first(&input[run.from..]);
        let end = run.from + parsed.end;
        if input.len() <= end {
            return run;
        }
        let current = run.number + 1;
        let ran = cost_line(
            parsed.event,
            current,
            run.sums,
            run.session,
            stores,
            out,
            run.filled,
        );
        run = CostedLines {
            session: ran.session,
            sums: ran.sums,
            number: current,
            from: end + 1,
            filled: ran.filled,
        };
    }
    run
}
