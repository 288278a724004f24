// The whole lines of a block of input, run as long as the output has room.
ghost use Rattle.std.specs.Prelude.{◌≡◌, ◌+◌, ◌/◌, ◌^◌, ◌≤◌, ◌<◌, min, max, length};
ghost use Rattle.event_sessions.specs.Sessions.{HoldsPool};
ghost use Rattle.event_sessions.specs.LentStores.{state_in, SameStores};
ghost use Rattle.event_runs.specs.Lines.{longest_answer, progress_in, progress_start, whole_lines, ran_all};
ghost use Rattle.pool_memory.specs.MemoryConstants.{copy_stride};

use crate::line::run_line;
use crate::run::Run;
use event_lines::parse_first;
use event_sessions::{Session, Stores};
use pool_memory::COPY_STRIDE;

// The most bytes of a row of output, as `most_row` of crates/event_answers/specs/Printed.antt.
const MOST_ROW: usize = 147;

// Returns the bytes of the longest answer in buffers of `copies` and `views` numbers. Where an output of `size` bytes has no room for
// them it is `size` + 1 instead, since the product could overflow.
fn longest_answer(copies: usize, views: usize, size: usize) -> usize
    requires { size < 2 ^ 63 }
    ensures { result ≡ min (longest_answer copies views) (size + 1) }
{
    let most = (copies / COPY_STRIDE).max(views);
    if size / MOST_ROW <= most {
        return size + 1;
    }
    (most + 1) * MOST_ROW
}

// Runs the whole lines of `input`, `number` lines having been run before, and puts their output at the front of `out`. Stops where
// `out` has no room for the longest answer, so that no line is run whose output does not fit.
// Asks to be part of its caller, which knows how long the lent stores are: a line then takes 4 % fewer instructions.
#[inline(always)]
pub fn run_lines(
    input: &[u8],
    number: u64,
    session: Session,
    stores: &mut Stores<'_>,
    out: &mut [u8],
) -> Run
    requires { HoldsPool (state_in session stores.old) × (number + length input.now < 2 ^ 64) }
    ensures same { SameStores stores.old stores.new }
    ensures ran { progress_in result stores.new out.new
        ≡ ran_all (length stores.old.copies.now) (length stores.old.views.now) (progress_start (state_in session stores.old) number out.old) (whole_lines input.now) }
    ensures filled { result.filled ≤ length out.old }
{
    let size = out.len();
    let room = longest_answer(stores.copies.len(), stores.views.len(), size);
    let mut run = Run {
        session,
        number,
        from: 0,
        filled: 0,
    };
    // Each line's own length and output say how far a turn goes, so no range counts the turns.
    while room <= size - run.filled {
        let parsed = parse_first(&input[run.from..]);
        let end = run.from + parsed.end;
        if input.len() <= end {
            return run;
        }
        let current = run.number + 1;
        let ran = run_line(parsed.event, current, run.session, stores, out, run.filled);
        run = Run {
            session: ran.session,
            number: current,
            from: end + 1,
            filled: ran.filled,
        };
    }
    run
}
