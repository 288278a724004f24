// What a texture's record says of its write history: the write count, or that there is no history. As one number: 0 for no history,
// one more than the count otherwise. So every number stands for one value, and what was read is written back as it stood.
ghost use Rattle.std.specs.Prelude.{◌≡◌};
ghost use Rattle.pool_records.specs.Recorded.{recorded_of, recorded_number, RecordedFits};

// Returns what the number stands for.
pub fn read_recorded(n: u64) -> Option<u64>
    ensures { result ≡ recorded_of n }
{
    n.checked_sub(1)
}

// Returns the number that stands for the history.
pub fn recorded_number(h: Option<u64>) -> u64
    requires { RecordedFits h }
    ensures { result ≡ recorded_number h }
{
    match h {
        Some(w) => w + 1,
        None => 0,
    }
}
