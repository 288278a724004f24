// What a query says.
use grid_shapes::Refusal;
use grid_stamps::Tile;

// What an accepted query tells.
#[derive(Clone, Copy)]
pub enum Told {
    // The memory forms a pool.
    Formed,
    Number(u64),
    Tile(Option<Tile>),
}

// What is told or the refusal, and whether a buffer of bytes, if one was lent, is as it was but for what the answer says of it. A line that
// is no query has no answer.
#[derive(Clone, Copy)]
pub struct Queried {
    pub answer: Option<Result<Told, Refusal>>,
    pub kept: bool,
}
