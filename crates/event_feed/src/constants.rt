// The numbers that have a name, each with its reason.

// The bytes that are kept of a line that is not whole yet. No event has as many: the longest is a word of 6 bytes and 9 fields of 20,
// with a comma before each. So a longer line is none, with its rest or without it.
pub const KEPT_BYTES: usize = 196;
