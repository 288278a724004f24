// Why a run of the lines of an input stops.
ghost use Rattle.std.specs.Prelude.{◌≡◌};
ghost use Rattle.event_stream.specs.Streams.{is_full, reason_of, why_number};

#[derive(Clone, Copy, PartialEq, Eq)]
pub enum StopReason {
    // The input has ended, or cannot be read.
    Ended,
    // Output could not be written.
    Unwritten,
    // The bytes that were read or written could pass the largest number in the next turn.
    TooLong,
}

// Returns whether a turn that reads up to `size` bytes more and writes up to `room` bytes more could count past the largest number.
#[tactic(auto, unfolding(crate::specs::Streams::is_full))]
pub fn is_full(read: u64, size: usize, written: u64, room: usize) -> bool
    ensures { result ≡ is_full read size written room }
{
    read.checked_add(size as u64).is_none() | written.checked_add(room as u64).is_none()
}

// Returns why a run stops after a turn for which `came` bytes were there, if it does.
#[tactic(auto, unfolding(crate::specs::Streams::reason_of))]
pub fn reason(came: usize, written: bool, full: bool) -> Option<StopReason>
    ensures { why_number result ≡ reason_of came written full }
{
    if !written {
        return Some(StopReason::Unwritten);
    }
    if came == 0 {
        return Some(StopReason::Ended);
    }
    if full {
        return Some(StopReason::TooLong);
    }
    None
}
