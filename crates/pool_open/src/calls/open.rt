// A pool just opened (the Rust's `new`).
ghost use Rattle.std.specs.Prelude.{◌≡◌};
ghost use Rattle.grid_shapes.specs.Outcomes.{outcome_number};
ghost use Rattle.pool_memory.specs.Lent.{at_entry};
ghost use Rattle.pool_memory.specs.Calls.{open_number, opened_pool, opened_book};

use crate::calls::sizes_fit::sizes_fit;
use grid_shapes::Refusal;
use pool_memory::{PacingBook, Pool};
use pool_rules::{DESTROY_SPREAD_DRAINS, VersionBudget};

// Holds whether the pool was opened, and the pool and the pacing book to begin with.
#[derive(Clone, Copy)]
pub struct OpenAnswer {
    pub outcome: Result<(), Refusal>,
    pub pool: Pool,
    pub book: PacingBook,
}

// Returns a pool with nothing tracked and nothing queued, and the budget of a working set.
pub fn opened_pool(working: u64) -> Pool
    ensures { result ≡ opened_pool working }
{
    let budget = VersionBudget::from_working_set(working);
    Pool {
        tracked: 0,
        kept: 0,
        grids: 0,
        stamps: 0,
        head: 0,
        popped: 0,
        queued: 0,
        first: 0,
        doomed: 0,
        since: 0,
        trackings: 0,
        parked: 0,
        dooming: 0,
        cap: budget.cap,
        line: budget.line,
    }
}

// Returns the pacing book of a pool in which nothing was queued for destruction yet.
pub fn opened_book() -> PacingBook
    ensures { result ≡ opened_book }
{
    PacingBook {
        arrivals: [0; DESTROY_SPREAD_DRAINS],
        slot: 0,
        pressed: 0,
        excess: 0,
    }
}

// Opens a pool. The slices are lent to be measured: whatever they hold is free, and stays.
pub fn open(
    working: u64,
    textures: &[u64],
    retiring: &[u64],
    doomed: &[u64],
    spares: &[u64],
    newest: &[u64],
    stamps: &[u64],
) -> OpenAnswer
    ensures outcome { outcome_number result.outcome
        ≡ open_number (at_entry (opened_pool working) opened_book textures.now retiring.now doomed.now spares.now newest.now stamps.now) }
    ensures pool { result.pool ≡ opened_pool working }
    ensures book { result.book ≡ opened_book }
{
    let fits = sizes_fit(textures, retiring, doomed, spares, newest, stamps);
    let pool = opened_pool(working);
    let book = opened_book();
    let outcome = if fits { Ok(()) } else { Err(Refusal::NoPool) };
    OpenAnswer {
        outcome,
        pool,
        book,
    }
}
