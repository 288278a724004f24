// Output.
ghost use Rattle.std.specs.Prelude.{◌≡◌, length};

// The descriptor of standard output.
const STDOUT_FILENO: i32 = 1;

// How many bytes of output there were, and whether all were written that are to be shown. Both are told together, since `CostRun` of
// crates/event_cost/specs/Runs.antt counts the bytes of a failed write too.
#[derive(Clone, Copy)]
pub struct Wrote {
    pub bytes: usize,
    pub all: bool,
}

// Writes these bytes of output to standard output where they are to be shown. What a write takes no contract can say, so the answer's `all`
// is what the system said; where nothing is shown nothing can fail.
pub fn write_out(bytes: &[u8], shown: bool) -> Wrote
    ensures { result.bytes ≡ length bytes.now }
{
    Wrote {
        bytes: bytes.len(),
        all: !shown || io::write_all(STDOUT_FILENO, bytes),
    }
}
