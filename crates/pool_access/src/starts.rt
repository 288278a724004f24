// Where the textures' grids and stamps begin, which their records hold.
ghost use Rattle.std.specs.Prelude.{◌≡◌, ◌+◌, ◌*◌, ◌≤◌, ◌<◌, cond, ltb, length, get_or};
ghost use Rattle.pool_records.specs.Starts.{starts_moved, StartsMove, grid_end, stamp_end};
ghost use Rattle.pool_records.specs.RecordConstants.{texture_stride};

use pool_records::{Shift, TEXTURE_GRID_AT, TEXTURE_STAMP_AT, TEXTURE_STRIDE};

// Returns number AT of the record after record i, of n records, or `used` after the last: where a run of texture i's ends, for AT where the
// records have where such runs begin, and textures that have `used` in all.
fn run_end<const AT: usize>(textures: &[u64], n: usize, used: usize, i: usize) -> usize
    requires { (texture_stride * n ≤ length textures.now) × (i < n) × (AT < texture_stride) }
    ensures { result ≡ cond (ltb (i + 1) n) (get_or textures.now (texture_stride * (i + 1) + AT) 0) used }
{
    if i + 1 < n {
        return textures[TEXTURE_STRIDE * (i + 1) + AT] as usize;
    }
    used
}

// Returns where the grids of texture i end, of n textures that have `used` in all: where the next one's begin, or past the last.
pub fn grid_end(textures: &[u64], n: usize, used: usize, i: usize) -> usize
    requires { (texture_stride * n ≤ length textures.now) × (i < n) }
    ensures { result ≡ grid_end textures.now n used i }
{
    run_end::<TEXTURE_GRID_AT>(textures, n, used, i)
}

// Returns where its stamps end.
pub fn stamp_end(textures: &[u64], n: usize, used: usize, i: usize) -> usize
    requires { (texture_stride * n ≤ length textures.now) × (i < n) }
    ensures { result ≡ stamp_end textures.now n used i }
{
    run_end::<TEXTURE_STAMP_AT>(textures, n, used, i)
}

// Moves where the grids and the stamps of the textures from i on, up to n, begin.
pub fn move_starts(textures: &mut [u64], i: usize, n: usize, grids: Shift, stamps: Shift)
    requires { (texture_stride * n ≤ length textures.old) × (i ≤ n) × StartsMove grids stamps i n textures.old }
    ensures { textures.new ≡ starts_moved grids stamps i n textures.old }
{
    for k in i..n {
        let g = TEXTURE_STRIDE * k + TEXTURE_GRID_AT;
        textures[g] = textures[g] - grids.less + grids.more;
        let s = TEXTURE_STRIDE * k + TEXTURE_STAMP_AT;
        textures[s] = textures[s] - stamps.less + stamps.more;
    }
}
