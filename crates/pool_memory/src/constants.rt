// The numbers that have a name, each with its reason.

// The numbers of a copy in a plan's buffer.
pub const COPY_STRIDE: usize = 7;
