// Why a call is refused, in the order of README's refusals: of those that apply, the lowest number is answered.
ghost use Rattle.std.specs.Prelude.{◌≡◌};
ghost use Rattle.grid_shapes.specs.Outcomes.{number_of};

#[derive(Clone, Copy, PartialEq, Eq)]
pub enum Refusal {
    // The lent memory does not form a pool, or its sizes do not fit.
    NoPool = 1,
    // An extent, the levels, the kind or the format is none that the pool takes.
    BadShape,
    // A number of a submission, settled, failed and now too, is above 2^48.
    BadSubmission,
    // A plan is asked for a texture that is tracked with another shape.
    OtherShape,
    // The texture is not tracked, and every texture place is used.
    TexturesFull,
    // A new history needs more stamps than are free, the texture's own counted as free.
    HistoryFull,
    // A version is retired, and every version place is used.
    VersionsFull,
    // A version is retired under a smaller number than the last one in the queue.
    OutOfOrder,
    // A version is popped while another one is not parked yet.
    HandFull,
    // A version is parked, and none is popped.
    HandEmpty,
    // The answer has more entries than its buffer, or the sheet more bytes.
    ShortAnswer,
    // A write count or the count of trackings would pass 2^48, or a plan would skip a covered level whose history has counted 2^48 writes.
    CounterSpent,
}

impl Refusal {
    // Returns the number of README's refusals.
    pub fn number(self) -> u64
        ensures { result ≡ number_of self }
    {
        self as u64
    }
}
