// drain_versions: every retiring version, queued destroy and spare is handed back; the textures stay tracked.
ghost use Rattle.std.specs.Prelude.{◌≡◌, true, ◌+◌, ◌*◌, ◌≤◌, ◌<◌, length};
ghost use Rattle.base_blocks.specs.Lists.{over};
ghost use Rattle.pool_memory.specs.Lent.{lent_by, at_entry, at_exit};
ghost use Rattle.pool_memory.specs.IsPool.{is_pool};
ghost use Rattle.pool_memory.specs.Calls.{drain_versions_on};
ghost use Rattle.pool_take_doomed.specs.Answer.{handed_told};
ghost use Rattle.pool_take_doomed.specs.DrainVersions.{drained_views, drained_counts, drained_book, cleared};
ghost use Rattle.pool_records.specs.RecordConstants.{doomed_stride, retiring_stride, spare_stride, texture_stride};

use crate::answer::DrainAnswer;
use crate::copy_column::copy_column;
use base_tables::ring_drop;
use grid_shapes::Refusal;
use pool_memory::{PacingBook, Pool};
use pool_records::{
    DOOMED_STRIDE, RETIRING_STRIDE, SPARE_STRIDE, TEXTURE_SPARES_AT, TEXTURE_STRIDE,
};
use pool_rules::DESTROY_SPREAD_DRAINS;

// Stores the views of all that is handed back at the buffer's front.
fn copy_views(
    pool: Pool,
    places: usize,
    retiring: &[u64],
    doomed: &[u64],
    spares: &[u64],
    buffer: &mut [u64],
)
    requires { (retiring_stride * places ≤ length retiring.now) × (doomed_stride * places ≤ length doomed.now)
        × (spare_stride * places ≤ length spares.now)
        × (pool.head < places) × (pool.first < places) × (pool.queued + pool.popped + pool.kept + pool.doomed ≤ places)
        × (pool.queued + pool.doomed + pool.kept ≤ length buffer.old) }
    ensures { buffer.new
        ≡ over (drained_views pool places retiring.now doomed.now spares.now) buffer.old }
{
    let queued = pool.queued;
    let waiting = pool.doomed;
    let from = pool.popped;
    copy_column(
        buffer,
        0,
        retiring,
        RETIRING_STRIDE,
        1,
        places,
        pool.head,
        from,
        queued,
    );
    copy_column(
        buffer,
        queued,
        doomed,
        DOOMED_STRIDE,
        0,
        places,
        pool.first,
        0,
        waiting,
    );
    copy_column(
        buffer,
        queued + waiting,
        spares,
        SPARE_STRIDE,
        0,
        places,
        0,
        0,
        pool.kept,
    );
}

// Takes the spares from the records of the first n textures.
fn clear_spares(textures: &mut [u64], n: usize)
    requires { texture_stride * n ≤ length textures.old }
    ensures { textures.new ≡ cleared n textures.old }
{
    for i in 0..n {
        textures[TEXTURE_STRIDE * i + TEXTURE_SPARES_AT] = 0;
    }
}

// Returns the counts once nothing is left but the version in the hand.
fn drained_counts(pool: Pool, places: usize) -> Pool
    requires { (pool.first < places) × (pool.doomed ≤ places) }
    ensures { result ≡ drained_counts pool places }
{
    let first = ring_drop(places, pool.first, pool.doomed);
    Pool {
        kept: 0,
        queued: 0,
        first,
        doomed: 0,
        since: 0,
        parked: 0,
        dooming: 0,
        ..pool
    }
}

// Returns the pacing book with its arrivals cleared: what is handed back here is no arrival of a later take. Slot, mark and excess
// stay.
fn drained_book(book: PacingBook) -> PacingBook
    ensures { result ≡ drained_book book }
{
    PacingBook {
        arrivals: [0; DESTROY_SPREAD_DRAINS],
        ..book
    }
}

// Hands back the versions of the queue, then of the destroy queue, then the spares: for a reset and the shutdown, whose caller
// waits for the GPU to go idle before it destroys them. The version in the hand stays, since its caller has it.
pub fn drain_versions(
    pool: Pool,
    book: PacingBook,
    textures: &mut [u64],
    retiring: &[u64],
    doomed: &[u64],
    spares: &[u64],
    newest: &[u64],
    stamps: &[u64],
    buffer: &mut [u64],
) -> DrainAnswer
    requires { is_pool (lent_by pool book textures.old retiring.now doomed.now spares.now newest.now stamps.now) ≡ true }
    ensures { (handed_told result.handed, (buffer.new, at_exit result.pool result.book textures.new retiring.now doomed.now spares.now newest.now stamps.now))
        ≡ drain_versions_on (at_entry pool book textures.old retiring.now doomed.now spares.now newest.now stamps.now) buffer.old }
{
    let places = retiring.len() / RETIRING_STRIDE;
    let count = pool.queued + pool.doomed + pool.kept;
    if buffer.len() < count {
        return DrainAnswer {
            pool,
            book,
            handed: Err(Refusal::ShortAnswer),
        };
    }
    copy_views(pool, places, retiring, doomed, spares, buffer);
    clear_spares(textures, pool.tracked);
    DrainAnswer {
        pool: drained_counts(pool, places),
        book: drained_book(book),
        handed: Ok(count),
    }
}
