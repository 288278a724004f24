// The writes that a spare holds: all up to a count, or unknown, since a submission that it was live through failed.
#[derive(Clone, Copy)]
pub enum Held {
    Known(u64),
    Unknown,
}
