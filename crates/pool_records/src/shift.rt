// A place that moves.

// How far what stands behind a change moves: down by what went out before it, up by what came in.
#[derive(Clone, Copy)]
pub struct Shift {
    pub less: u64,
    pub more: u64,
}
