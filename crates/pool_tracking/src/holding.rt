// What a tracked texture holds in the lent slices.
ghost use Rattle.std.specs.Prelude.{◌≡◌};
ghost use Rattle.pool_tracking.specs.Holdings.{HoldingReads, holding_at};

use pool_access::{grid_end, spares_before, stamp_end, texture_at};
use pool_memory::Pool;

// Where its spares begin, how many there are and the bytes of each; where its grids' numbers begin in `newest` and how many there
// are, and alike its stamps.
#[derive(Clone, Copy)]
pub struct Holding {
    pub first: usize,
    pub spares: usize,
    pub bytes: u64,
    pub grid: usize,
    pub grids: usize,
    pub stamp: usize,
    pub stamps: usize,
}

// Returns what texture i holds.
pub fn holding_at(pool: Pool, textures: &[u64], i: usize) -> Holding
    requires { HoldingReads pool textures.now i }
    ensures { result ≡ holding_at pool textures.now i }
{
    let t = texture_at(textures, i);
    let grid = t.grid as usize;
    let stamp = t.stamp as usize;
    let spares = t.spares as usize;
    let bytes = t.bytes;
    let first = spares_before(textures, i);
    let grids_end = grid_end(textures, pool.tracked, pool.grids, i);
    let stamps_end = stamp_end(textures, pool.tracked, pool.stamps, i);
    Holding {
        first,
        spares,
        bytes,
        grid,
        grids: grids_end - grid,
        stamp,
        stamps: stamps_end - stamp,
    }
}
