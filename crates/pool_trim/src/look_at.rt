// What a trim does with one texture.
ghost use Rattle.std.specs.Prelude.{◌≡◌, ◌+◌, ◌-◌, ◌*◌, ◌≤◌, ◌<◌, length};
ghost use Rattle.base_blocks.specs.Lists.{listed};
ghost use Rattle.pool_records.specs.Starts.{grid_end, stamp_end};
ghost use Rattle.pool_records.specs.Texture.{texture_in};
ghost use Rattle.pool_rules.specs.Trim.{aged_count};
ghost use Rattle.pool_trim.specs.LookAt.{spare_in, is_idle, due_after, look_at};
ghost use Rattle.pool_records.specs.RecordConstants.{spare_stride, texture_stride};

use pool_access::{grid_end, stamp_end};
use pool_memory::Pool;
use pool_records::{
    SPARE_PARKED_AT, SPARE_STRIDE, TEXTURE_BYTES_AT, TEXTURE_DUE_AT, TEXTURE_GRID_AT,
    TEXTURE_RENAME_AT, TEXTURE_SPARES_AT, TEXTURE_STAMP_AT, TEXTURE_STRIDE,
};
use pool_rules::{SPARE_MAX_IDLE_SUBMITS, STATE_MAX_IDLE_SUBMITS};

// Of its `own` spares the oldest `aged` are given up, `bytes` each. Its grids begin at `grid` in `newest` and their stamps at `stamp`. It
// stays tracked (`staying` is 1) with `grids` numbers of `newest`, `stamps` stamps and the number `due`, or it is dropped (`staying`,
// `grids` and `stamps` are 0). `staying` is a number, since the pass adds it to its count.
#[derive(Clone, Copy)]
pub struct Look {
    pub own: usize,
    pub aged: usize,
    pub staying: usize,
    pub grid: usize,
    pub grids: usize,
    pub stamp: usize,
    pub stamps: usize,
    pub due: u64,
    pub bytes: u64,
}

// Counts, of the n spares from place `first` on, those idle past the bound, from the oldest on up to the first that is not.
pub fn aged_count(spares: &[u64], first: usize, n: usize, current: u64) -> usize
    requires { spare_stride * (first + n) ≤ length spares.now }
    ensures { (result ≤ n) × (result ≡ aged_count current (listed (spare_in spares.now) first n)) }
{
    let bound = current.saturating_sub(SPARE_MAX_IDLE_SUBMITS);
    for k in 0..n {
        if spares[SPARE_STRIDE * (first + k) + SPARE_PARKED_AT] >= bound {
            return k;
        }
    }
    n
}

// Tells whether texture i, with `left` spares, is dropped. Its state is far smaller than a spare, so that it is kept longer.
fn is_idle(textures: &[u64], i: usize, left: usize, current: u64) -> bool
    requires { texture_stride * i + texture_stride ≤ length textures.now }
    ensures { result ≡ is_idle current (texture_in textures.now i) left }
{
    let oldest = current.saturating_sub(STATE_MAX_IDLE_SUBMITS);
    (textures[TEXTURE_STRIDE * i + TEXTURE_DUE_AT] < oldest)
        & ((textures[TEXTURE_STRIDE * i + TEXTURE_RENAME_AT] < oldest) & (left == 0))
}

// Returns the number by which the next trims look at texture i.
fn due_after(textures: &[u64], i: usize, current: u64) -> u64
    requires { texture_stride * i + texture_stride ≤ length textures.now }
    ensures { result ≡ due_after current (texture_in textures.now i) }
{
    let bound = current.saturating_sub(STATE_MAX_IDLE_SUBMITS);
    let rename = textures[TEXTURE_STRIDE * i + TEXTURE_RENAME_AT];
    let due = textures[TEXTURE_STRIDE * i + TEXTURE_DUE_AT];
    if due >= bound {
        return due;
    }
    if rename >= bound {
        return rename;
    }
    current
}

// Looks at texture i, whose spares begin at place `first`.
pub fn look_at(
    pool: Pool,
    textures: &[u64],
    spares: &[u64],
    i: usize,
    first: usize,
    current: u64,
) -> Look
    requires { (texture_stride * pool.tracked ≤ length textures.now) × (i < pool.tracked)
        × (spare_stride * (first + (texture_in textures.now i).spares) ≤ length spares.now)
        × ((texture_in textures.now i).grid ≤ grid_end textures.now pool.tracked pool.grids i)
        × ((texture_in textures.now i).stamp ≤ stamp_end textures.now pool.tracked pool.stamps i) }
    ensures { result ≡ look_at current pool textures.now spares.now i first }
{
    let own = textures[TEXTURE_STRIDE * i + TEXTURE_SPARES_AT] as usize;
    let aged = aged_count(spares, first, own, current);
    let grid = textures[TEXTURE_STRIDE * i + TEXTURE_GRID_AT] as usize;
    let grids = grid_end(textures, pool.tracked, pool.grids, i) - grid;
    let stamp = textures[TEXTURE_STRIDE * i + TEXTURE_STAMP_AT] as usize;
    let stamps = stamp_end(textures, pool.tracked, pool.stamps, i) - stamp;
    let bytes = textures[TEXTURE_STRIDE * i + TEXTURE_BYTES_AT];
    let due = due_after(textures, i, current);
    let look = Look {
        own,
        aged,
        staying: 1,
        grid,
        grids,
        stamp,
        stamps,
        due,
        bytes,
    };
    if is_idle(textures, i, own - aged, current) {
        return Look {
            staying: 0,
            grids: 0,
            stamps: 0,
            ..look
        };
    }
    look
}
