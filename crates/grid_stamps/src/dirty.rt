// Some tile written since a count, on one page.
ghost use Rattle.std.specs.Prelude.{◌≤◌, length};
ghost use Rattle.grid_stamps.specs.Grids.{TilingOk, stamp_count, IsDirtyTile};

use crate::grid::{Tile, Tiling};
use grid_axes::tiles;

// Returns some tile stamped above `held`, or none if there is none. Which one is left open.
pub fn dirty_tile(page: &[u64], tiling: Tiling, held: u64) -> Option<Tile>
    requires { TilingOk tiling × (stamp_count tiling ≤ length page.now) }
    ensures { IsDirtyTile tiling held page.now result }
{
    let columns = tiles(tiling.across) as usize;
    let count = columns * (tiles(tiling.down) as usize);
    for k in 0..count {
        if held < page[k] {
            return Some(Tile {
                column: (k % columns) as u64,
                row: (k / columns) as u64,
            });
        }
    }
    None
}
