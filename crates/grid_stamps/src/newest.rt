// A grid's newest stamp, read off its page.
ghost use Rattle.std.specs.Prelude.{◌≡◌, ◌≤◌, ◌<◌, eqb, length};
ghost use Rattle.grid_stamps.specs.Grids.{TilingOk, stamp_count, largest_stamp};

use crate::grid::{Tiling, stamp_count};

// Returns the largest stamp of the grid.
pub fn largest_stamp(page: &[u64], tiling: Tiling) -> u64
    requires { TilingOk tiling × (stamp_count tiling ≤ length page.now) }
    ensures { result ≡ largest_stamp tiling page.now }
{
    let count = stamp_count(tiling) as usize;
    base_blocks::largest_of(&page[..count])
}

// Returns whether `newest` is the largest stamp: none passes it, and one equals it, which is quicker to see than a maximum.
pub fn is_largest_stamp(page: &[u64], tiling: Tiling, newest: u64) -> bool
    requires { TilingOk tiling × (stamp_count tiling ≤ length page.now) × (0 < stamp_count tiling) }
    ensures { result ≡ eqb (largest_stamp tiling page.now) newest }
{
    let count = stamp_count(tiling) as usize;
    if !base_blocks::within(&page[..count], newest) {
        return false;
    }
    base_blocks::contains(&page[..count], newest)
}
