// What a line is answered with.
use pool_rules::Held;

// The answer of a line. Views and copies stand in the answer buffers, and the answer says how many: a view is one number, a copy seven.
#[derive(Clone, Copy)]
pub enum Answer {
    // No call was made.
    Question,
    // 01's number of a refusal.
    Refused(u64),
    // Accepted, with nothing but the outcome to say.
    Done,
    // A spare: its view number and its held writes.
    Spare(u64, Held),
    NoSpare,
    // A popped version: its id and its view number.
    Version(u64, u64),
    NothingSettled,
    Views(usize),
    Copies(usize),
}
