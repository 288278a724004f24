// What the two calls that hand versions back answer.
use grid_shapes::Refusal;
use pool_memory::{PacingBook, Pool};

// The pool and the pacing book after the call, with how many views stand in the answer buffer; after a refusal both are as they were.
#[derive(Clone, Copy)]
pub struct DrainAnswer {
    pub pool: Pool,
    pub book: PacingBook,
    pub handed: Result<usize, Refusal>,
}
