// take_doomed: the next batch of versions to destroy.
ghost use Rattle.std.specs.Prelude.{◌≡◌, true, ◌≤◌, ◌<◌};
ghost use Rattle.pool_memory.specs.Lent.{lent_by, at_entry, at_exit};
ghost use Rattle.pool_memory.specs.IsPool.{is_pool};
ghost use Rattle.pool_memory.specs.Calls.{take_doomed_on};
ghost use Rattle.pool_take_doomed.specs.Answer.{handed_told};
ghost use Rattle.pool_take_doomed.specs.TakeDoomed.{taken_counts, taken_book};
ghost use Rattle.pool_rules.specs.RuleConstants.{destroy_spread_drains};

use crate::answer::DrainAnswer;
use crate::copy_column::copy_column;
use crate::next_batch::{Batch, arrived, next_batch};
use base_tables::ring_drop;
use grid_shapes::Refusal;
use pool_memory::{PacingBook, Pool};
use pool_records::{DOOMED_STRIDE, RETIRING_STRIDE};
use pool_rules::DESTROY_SPREAD_DRAINS;

// Returns the counts once the batch has left the front of the destroy ring.
fn taken_counts(pool: Pool, places: usize, batch: Batch) -> Pool
    requires { (pool.first < places) × (batch.count ≤ places) × (batch.count ≤ pool.doomed) × (batch.bytes ≤ pool.dooming) }
    ensures { result ≡ taken_counts pool places batch.count batch.bytes }
{
    let first = ring_drop(places, pool.first, batch.count);
    Pool {
        first,
        doomed: pool.doomed - batch.count,
        since: 0,
        dooming: pool.dooming - batch.bytes,
        ..pool
    }
}

// Returns the pacing book once these arrivals are noted: the next slot, and no excess, since the batch has covered it.
fn taken_book(book: PacingBook, arrivals: [u64; DESTROY_SPREAD_DRAINS]) -> PacingBook
    requires { book.slot < destroy_spread_drains }
    ensures { result ≡ taken_book book arrivals }
{
    PacingBook {
        arrivals,
        slot: (book.slot + 1) % DESTROY_SPREAD_DRAINS,
        excess: 0,
        ..book
    }
}

// Hands back the next batch of versions to destroy, the oldest first; the rest wait for the next call. Every queued version was
// popped after its submission settled and no rename takes it again, so that a version may be destroyed a few drains late without
// harm.
pub fn take_doomed(
    pool: Pool,
    book: PacingBook,
    textures: &[u64],
    retiring: &[u64],
    doomed: &[u64],
    spares: &[u64],
    newest: &[u64],
    stamps: &[u64],
    buffer: &mut [u64],
) -> DrainAnswer
    requires { is_pool (lent_by pool book textures.now retiring.now doomed.now spares.now newest.now stamps.now) ≡ true }
    ensures { (handed_told result.handed, (buffer.new, at_exit result.pool result.book textures.now retiring.now doomed.now spares.now newest.now stamps.now))
        ≡ take_doomed_on (at_entry pool book textures.now retiring.now doomed.now spares.now newest.now stamps.now) buffer.old }
{
    let places = retiring.len() / RETIRING_STRIDE;
    let first = pool.first;
    let arrivals = arrived(book, pool.since);
    let batch = next_batch(doomed, places, first, pool.doomed, arrivals, book.excess);
    let count = batch.count;
    if buffer.len() < count {
        return DrainAnswer {
            pool,
            book,
            handed: Err(Refusal::ShortAnswer),
        };
    }
    copy_column(buffer, 0, doomed, DOOMED_STRIDE, 0, places, first, 0, count);
    DrainAnswer {
        pool: taken_counts(pool, places, batch),
        book: taken_book(book, arrivals),
        handed: Ok(count),
    }
}
