// What calls answer: the outcome of one that says nothing else, and the versions that they hand out.
use crate::pool::Pool;
use grid_shapes::Refusal;
use pool_rules::Held;

// The pool after the call, and whether it was accepted. After a refusal the pool is as it was.
#[derive(Clone, Copy)]
pub struct DoneAnswer {
    pub pool: Pool,
    pub outcome: Result<(), Refusal>,
}

// A spare that a take hands out: its view number and the writes that it holds.
#[derive(Clone, Copy)]
pub struct TakenVersion {
    pub view: u64,
    pub held: Held,
}

// A version that a pop hands out: its texture's id and its view number.
#[derive(Clone, Copy)]
pub struct PoppedVersion {
    pub id: u64,
    pub view: u64,
}
