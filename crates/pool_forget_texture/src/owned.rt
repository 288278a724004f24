// What one texture owns, and the pool without it: its counts, and the records of the others.
ghost use Rattle.std.specs.Prelude.{◌≡◌, ◌+◌, ◌*◌, ◌-◌, ◌≤◌, ◌<◌, ◌^◌, length};
ghost use Rattle.base_blocks.specs.Blocks.{moved};
ghost use Rattle.pool_records.specs.RecordConstants.{texture_stride};
ghost use Rattle.pool_records.specs.Starts.{less_by, StartsMove, grid_end, stamp_end};
ghost use Rattle.pool_records.specs.Texture.{spares_to, texture_in};
ghost use Rattle.pool_rules.specs.RuleConstants.{most_places};
ghost use Rattle.pool_forget_texture.specs.Owned.{owned_at, without, without_record};

use pool_access::{first_spare, grid_end, move_starts, remove_texture, stamp_end, texture_at};
use pool_memory::Pool;
use pool_records::Shift;

// Its spares begin at place `first`, its `grids` numbers of `newest` at `grid` and its stamps at `stamp`; `bytes` is what each of its versions takes.
#[derive(Clone, Copy)]
pub struct Owned {
    pub first: usize,
    pub spares: usize,
    pub grid: usize,
    pub grids: usize,
    pub stamp: usize,
    pub stamps: usize,
    pub bytes: u64,
}

// Returns what texture i owns. Where its grids and stamps begin stands in its record, and where they end in the next one's.
pub fn owned_at(pool: Pool, textures: &[u64], i: usize) -> Owned
    requires { (texture_stride * pool.tracked ≤ length textures.now) × (i < pool.tracked)
        × (spares_to textures.now pool.tracked ≡ pool.kept) × (pool.kept ≤ most_places)
        × ((texture_in textures.now i).grid ≤ grid_end textures.now pool.tracked pool.grids i)
        × ((texture_in textures.now i).stamp ≤ stamp_end textures.now pool.tracked pool.stamps i) }
    ensures { result ≡ owned_at pool textures.now i }
{
    let tracked = pool.tracked;
    let t = texture_at(textures, i);
    let first = first_spare(textures, tracked, pool.kept, i);
    let grid = t.grid as usize;
    let grids = grid_end(textures, tracked, pool.grids, i) - grid;
    let stamp = t.stamp as usize;
    let stamps = stamp_end(textures, tracked, pool.stamps, i) - stamp;
    Owned {
        first,
        spares: t.spares as usize,
        grid,
        grids,
        stamp,
        stamps,
        bytes: t.bytes,
    }
}

// Takes record i out of the n that there are. The later ones move down, and their grids and stamps begin lower by what the texture
// owned.
pub fn remove_record(textures: &mut [u64], n: usize, i: usize, own: Owned)
    requires { (texture_stride * n ≤ length textures.old) × (i < n)
        × StartsMove (less_by own.grids) (less_by own.stamps) i (n - 1)
        (moved textures.old (texture_stride * i) (texture_stride * i + texture_stride * 1) (texture_stride * (n - (i + 1)))) }
    ensures { textures.new ≡ without_record textures.old n i own }
{
    remove_texture(textures, n, i);
    let grids = Shift {
        less: own.grids as u64,
        more: 0,
    };
    let stamps = Shift {
        less: own.stamps as u64,
        more: 0,
    };
    move_starts(textures, i, n - 1, grids, stamps);
}

// Returns the counts without the texture. Its spares wait to be destroyed.
pub fn counts_without(pool: Pool, own: Owned) -> Pool
    requires { (1 ≤ pool.tracked) × (own.spares ≤ pool.kept) × (own.grids ≤ pool.grids) × (own.stamps ≤ pool.stamps)
        × (pool.doomed + own.spares ≤ most_places)
        × (pool.since ≤ most_places) × (own.bytes * own.spares ≤ pool.parked) × (pool.dooming + own.bytes * own.spares < 2 ^ 64) }
    ensures { result ≡ without pool own }
{
    let count = own.spares as u64;
    let freed = own.bytes * count;
    Pool {
        tracked: pool.tracked - 1,
        kept: pool.kept - own.spares,
        grids: pool.grids - own.grids,
        stamps: pool.stamps - own.stamps,
        doomed: pool.doomed + own.spares,
        since: pool.since + count,
        parked: pool.parked - freed,
        dooming: pool.dooming + freed,
        ..pool
    }
}
