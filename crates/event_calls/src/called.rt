// What a call leaves and answers.
use event_answers::Answer;
use pool_memory::{PacingBook, Pool};

// The counts, the pacing book and the answer of the line.
#[derive(Clone, Copy)]
pub struct Called {
    pub pool: Pool,
    pub book: PacingBook,
    pub answer: Answer,
}
