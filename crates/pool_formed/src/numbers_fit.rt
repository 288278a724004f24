// The numbers that no slice bears on: trackings, cap, arrivals since the last take, pacing book. That the book has eight arrivals is
// its type's, and stands in the contract for those who list them.
ghost use Rattle.std.specs.Prelude.{◌≡◌, length};
ghost use Rattle.pool_formed.specs.Parts.{numbers_fit};
ghost use Rattle.pool_rules.specs.RuleConstants.{destroy_spread_drains};

use pool_memory::{PacingBook, Pool};
use pool_rules::{DESTROY_SPREAD_DRAINS, LIMIT};

pub fn numbers_fit(pool: Pool, book: PacingBook) -> bool
    ensures { (result ≡ numbers_fit pool book) × (length book.arrivals ≡ destroy_spread_drains) }
{
    let arrivals = book.arrivals;
    (pool.trackings <= LIMIT)
        & (pool.parked <= pool.cap)
        & (book.slot < DESTROY_SPREAD_DRAINS)
        & (book.pressed <= 1)
        & (pool.since <= pool.doomed as u64)
        & base_blocks::within(&arrivals, 4096)
}
