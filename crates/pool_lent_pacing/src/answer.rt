// What a call answers that hands versions back and was lent the pacing book.
use grid_shapes::Refusal;
use pool_memory::Pool;

// The pool after the call, and how many views stand in the answer buffer; after a refusal the pool is as it was.
#[derive(Clone, Copy)]
pub struct HandedAnswer {
    pub pool: Pool,
    pub handed: Result<usize, Refusal>,
}
