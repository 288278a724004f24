// What take_spare answers.
use grid_shapes::Refusal;
use pool_memory::{Pool, TakenVersion};

// The pool after the call, with the texture's newest spare if it has one. After a refusal the pool is as it was.
#[derive(Clone, Copy)]
pub struct TakeAnswer {
    pub pool: Pool,
    pub taken: Result<Option<TakenVersion>, Refusal>,
}
