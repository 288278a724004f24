// The pacing book.
use pool_rules::DESTROY_SPREAD_DRAINS;

// The arrivals between each of the last eight takes, the slot that the next take writes, the pressure mark (1 while it is set,
// else 0), and the bytes that the next take hands back at least. The mark is a number, for a bool leaves padding that slows copies.
#[derive(Clone, Copy)]
pub struct PacingBook {
    pub arrivals: [u64; DESTROY_SPREAD_DRAINS],
    pub slot: usize,
    pub pressed: u64,
    pub excess: u64,
}
