// The questions to one page's grid, each asked through a view of the page.
ghost use Rattle.std.specs.Prelude.{◌≡◌, ◌≤◌, length};
ghost use Rattle.grid_stamps.specs.Grids.{TilingOk, stamp_count, grid_in, box_since, IsDirtyTile};

use crate::view::view_of;
use grid_rects::TexelRect;
use grid_stamps::{Tile, Tiling};

// Returns the smallest box of whole tiles around those stamped above `held`, cut to the level, or none if there is none.
pub fn written_since(page: &[u64], tiling: Tiling, newest: u64, held: u64) -> Option<TexelRect>
    requires { TilingOk tiling × (stamp_count tiling ≤ length page.now) }
    ensures { result ≡ box_since tiling held (grid_in tiling newest page.now) }
{
    view_of(page, tiling).written_since(newest, held)
}

// Returns some tile stamped above `held`, or none if there is none. Which one is left open.
pub fn dirty_tile(page: &[u64], tiling: Tiling, held: u64) -> Option<Tile>
    requires { TilingOk tiling × (stamp_count tiling ≤ length page.now) }
    ensures { IsDirtyTile tiling held page.now result }
{
    view_of(page, tiling).dirty_tile(held)
}
