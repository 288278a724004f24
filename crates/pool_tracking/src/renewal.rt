// A texture that is tracked with another shape: the spares made for the old shape cannot serve it, so that they are queued for
// destruction and its tracking is renewed.
ghost use Rattle.std.specs.Prelude.{◌≡◌, true, false, ◌+◌, ◌*◌, ◌-◌, ◌^◌, ◌≤◌, ◌<◌, length};
ghost use Rattle.std.proofs.Math.Option.{none};
ghost use Rattle.base_blocks.specs.Blocks.{moved};
ghost use Rattle.base_tables.specs.Rings.{laid};
ghost use Rattle.grid_shapes.specs.Shapes.{is_shape, same_shape};
ghost use Rattle.pool_records.specs.Doomed.{write_doomed};
ghost use Rattle.pool_records.specs.Starts.{starts_moved, StartsMove};
ghost use Rattle.pool_memory.specs.Lent.{lent_by, at_entry, at_exit};
ghost use Rattle.pool_memory.specs.Calls.{answer, take_spare_on};
ghost use Rattle.pool_take_doomed.specs.Given.{given_records};
ghost use Rattle.pool_tracking.specs.Cases.{Begins, record_of, TrackedAt};
ghost use Rattle.pool_tracking.specs.Holdings.{given_up, grid_shift, stamp_shift, record_renewed};
ghost use Rattle.pool_records.specs.RecordConstants.{doomed_stride, spare_stride, texture_stride};

use crate::begun::{NewTracking, fresh_grids, new_record};
use crate::blocks::renew_block;
use crate::holding::{Holding, holding_at};
use crate::tilings::renew_newest;
use base_tables::remove_records;
use pool_access::{move_starts, put_texture};
use pool_memory::{PacingBook, Pool};
use pool_records::{RETIRING_STRIDE, SPARE_STRIDE, Shift};
use pool_take_doomed::push_spares;

// Queues the k spares from place `from` on for destruction and takes them out of their slice. The destroy ring has `places` places.
// Returns the counts after it.
fn give_up(
    pool: Pool,
    doomed: &mut [u64],
    spares: &mut [u64],
    places: usize,
    from: usize,
    k: usize,
    bytes: u64,
) -> Pool
    requires { (doomed_stride * places ≤ length doomed.old) × (pool.first < places) × (pool.doomed + k ≤ places)
        × (from + k ≤ pool.kept) × (spare_stride * pool.kept ≤ length spares.old) × (bytes * k ≤ pool.parked)
        × (pool.dooming + bytes * k < 2 ^ 64) × (pool.since + k < 2 ^ 64) }
    ensures { (result ≡ given_up pool k bytes)
        × (doomed.new
        ≡ laid doomed_stride write_doomed places pool.first pool.doomed (given_records spares.old bytes from k) doomed.old)
        × (spares.new
        ≡ moved spares.old (spare_stride * from) (spare_stride * from + spare_stride * k) (spare_stride * (pool.kept - (from + k)))) }
{
    push_spares(
        doomed,
        places,
        pool.first,
        pool.doomed,
        spares,
        from,
        k,
        bytes,
    );
    remove_records(spares, SPARE_STRIDE, pool.kept, from, k);
    let all = bytes * k as u64;
    Pool {
        kept: pool.kept - k,
        doomed: pool.doomed + k,
        since: pool.since + k as u64,
        parked: pool.parked - all,
        dooming: pool.dooming + all,
        ..pool
    }
}

// Writes the texture's record over, of n. Its grids and its stamps begin where they began; those of the textures behind it move by
// what its history has now and had before.
fn renew_record(
    textures: &mut [u64],
    n: usize,
    new: NewTracking,
    epoch: u64,
    fresh: usize,
    old: Holding,
)
    requires { (texture_stride * n ≤ length textures.old) × (new.place < n) × (is_shape new.shape ≡ true)
        × StartsMove (grid_shift old fresh) (stamp_shift old new) (new.place + 1) n (record_renewed textures.old new epoch old) }
    ensures { textures.new
        ≡ starts_moved (grid_shift old fresh) (stamp_shift old new) (new.place + 1) n (record_renewed textures.old new epoch old) }
{
    let i = new.place;
    put_texture(textures, i, new_record(new, epoch, old.grid, old.stamp));
    let grids = Shift {
        less: old.grids as u64,
        more: fresh as u64,
    };
    let stamps = Shift {
        less: old.stamps as u64,
        more: new.stamps as u64,
    };
    move_starts(textures, i + 1, n, grids, stamps);
}

// Renews a texture's tracking under the new shape: its history's grids begin where they began, and those behind it move. Versions of
// the old one that are still retiring are destroyed when they are parked, since the tracking's number differs. Returns the counts
// after it.
pub fn renew_tracking(
    pool: Pool,
    book: PacingBook,
    textures: &mut [u64],
    retiring: &[u64],
    doomed: &mut [u64],
    spares: &mut [u64],
    newest: &mut [u64],
    stamps: &mut [u64],
    new: NewTracking,
) -> Pool
    requires { Begins (lent_by pool book textures.old retiring.now doomed.old spares.old newest.old stamps.old) new
        × TrackedAt (lent_by pool book textures.old retiring.now doomed.old spares.old newest.old stamps.old) new.place new.id
        × (same_shape (record_of (lent_by pool book textures.old retiring.now doomed.old spares.old newest.old stamps.old) new.place).shape new.shape ≡ false) }
    ensures { (answer none, at_exit result book textures.new retiring.now doomed.new spares.new newest.new stamps.new)
        ≡ take_spare_on (at_entry pool book textures.old retiring.now doomed.old spares.old newest.old stamps.old) new.id new.shape new.records new.seq }
{
    let places = retiring.len() / RETIRING_STRIDE;
    let old = holding_at(pool, textures, new.place);
    let epoch = pool.trackings + 1;
    let shape = new.shape;
    let fresh = fresh_grids(shape, new.records);
    let left = give_up(
        pool, doomed, spares, places, old.first, old.spares, old.bytes,
    );
    renew_record(textures, pool.tracked, new, epoch, fresh, old);
    let grids_end = old.grid + old.grids;
    let stamps_end = old.stamp + old.stamps;
    renew_newest(
        newest,
        old.grid,
        old.grids,
        fresh,
        pool.grids - grids_end,
        shape,
    );
    renew_block(
        stamps,
        old.stamp,
        old.stamps,
        new.stamps,
        pool.stamps - stamps_end,
    );
    Pool {
        grids: pool.grids - old.grids + fresh,
        stamps: pool.stamps - old.stamps + new.stamps,
        trackings: epoch,
        ..left
    }
}
