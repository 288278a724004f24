// A texture that is not tracked yet: its tracking begins with no spares and, where its writes are recorded, an empty history.
ghost use Rattle.std.specs.Prelude.{◌≡◌, true, ◌+◌, ◌*◌, ◌≤◌, length};
ghost use Rattle.grid_shapes.specs.Shapes.{is_shape};
ghost use Rattle.pool_records.specs.Starts.{starts_moved, StartsMove, more_by};
ghost use Rattle.pool_records.specs.RecordConstants.{texture_stride};
ghost use Rattle.pool_tracking.specs.Start.{first_at, record_started, StartFits, tracking_started};

use crate::begun::{NewTracking, fresh_grids, new_record};
use crate::blocks::renew_block;
use crate::tilings::renew_newest;
use pool_access::{insert_texture, move_starts};
use pool_memory::Pool;
use pool_records::{Shift, TEXTURE_GRID_AT, TEXTURE_STAMP_AT, TEXTURE_STRIDE};

// Where a texture's grids and its stamps begin.
#[derive(Clone, Copy)]
pub struct First {
    pub grid: usize,
    pub stamp: usize,
}

// Returns where the grids and the stamps of a texture begin that is put in at place i: where those of the one that stands there
// do, or behind all of them.
fn first_at(pool: Pool, textures: &[u64], i: usize) -> First
    requires { texture_stride * pool.tracked ≤ length textures.now }
    ensures { result ≡ first_at pool textures.now i }
{
    if i < pool.tracked {
        return First {
            grid: textures[TEXTURE_STRIDE * i + TEXTURE_GRID_AT] as usize,
            stamp: textures[TEXTURE_STRIDE * i + TEXTURE_STAMP_AT] as usize,
        };
    }
    First {
        grid: pool.grids,
        stamp: pool.stamps,
    }
}

// Puts a record of the texture in at its place among n. The grids and the stamps of the textures behind it begin later.
fn start_record(
    textures: &mut [u64],
    n: usize,
    new: NewTracking,
    epoch: u64,
    fresh: usize,
    first: First,
)
    requires { (texture_stride * n + texture_stride ≤ length textures.old) × (new.place ≤ n) × (is_shape new.shape ≡ true)
        × StartsMove (more_by fresh) (more_by new.stamps) (new.place + 1) (n + 1) (record_started textures.old n new epoch first) }
    ensures { textures.new
        ≡ starts_moved (more_by fresh) (more_by new.stamps) (new.place + 1) (n + 1) (record_started textures.old n new epoch first) }
{
    let i = new.place;
    insert_texture(
        textures,
        n,
        i,
        new_record(new, epoch, first.grid, first.stamp),
    );
    let grids = Shift {
        less: 0,
        more: fresh as u64,
    };
    let stamps = Shift {
        less: 0,
        more: new.stamps as u64,
    };
    move_starts(textures, i + 1, n + 1, grids, stamps);
}

// Begins a texture's tracking: its record, and grids for its history among those of the textures around it, since both are packed
// in ascending id. Returns the counts after it.
pub fn start_tracking(
    pool: Pool,
    textures: &mut [u64],
    newest: &mut [u64],
    stamps: &mut [u64],
    new: NewTracking,
) -> Pool
    requires { StartFits pool textures.old newest.old stamps.old new }
    ensures { (result, (textures.new, (newest.new, stamps.new)))
        ≡ tracking_started pool textures.old newest.old stamps.old new }
{
    let epoch = pool.trackings + 1;
    let shape = new.shape;
    let fresh = fresh_grids(shape, new.records);
    let first = first_at(pool, textures, new.place);
    start_record(textures, pool.tracked, new, epoch, fresh, first);
    renew_newest(newest, first.grid, 0, fresh, pool.grids - first.grid, shape);
    renew_block(
        stamps,
        first.stamp,
        0,
        new.stamps,
        pool.stamps - first.stamp,
    );
    Pool {
        tracked: pool.tracked + 1,
        grids: pool.grids + fresh,
        stamps: pool.stamps + new.stamps,
        trackings: epoch,
        ..pool
    }
}
