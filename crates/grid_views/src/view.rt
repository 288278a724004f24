// A view of a grid's page, and what is read through it.
ghost use Rattle.std.specs.Prelude.{◌≡◌, ◌≤◌, length};
ghost use Rattle.grid_stamps.specs.Grids.{TilingOk, stamp_count, grid_in, box_since, IsDirtyTile};

use grid_rects::TexelRect;
use grid_stamps::{Tile, Tiling};

// The page's slice, and how its level is cut into columns and rows, each with its tiles' edge.
#[derive(Clone, Copy)]
pub struct GridView<'a> {
    pub page: &'a [u64],
    pub tiling: Tiling,
}

// Makes a view of the page and its level's tiling.
pub fn view_of<'a>(page: &'a [u64], tiling: Tiling) -> GridView<'a>
    ensures { (result.page ≡ page.entry) × (result.tiling ≡ tiling) }
{
    GridView { page, tiling }
}

impl<'a> GridView<'a> {
    // Returns the smallest box of whole tiles around those stamped above `held`, cut to the level, or none if there is none.
    pub fn written_since(self, newest: u64, held: u64) -> Option<TexelRect>
        requires { TilingOk self.tiling × (stamp_count self.tiling ≤ length self.page.now) }
        ensures { result ≡ box_since self.entry.tiling held (grid_in self.entry.tiling newest self.entry.page.now) }
    {
        grid_stamps::written_since(self.page, self.tiling, newest, held)
    }

    // Returns some tile stamped above `held`, or none if there is none. Which one is left open.
    pub fn dirty_tile(self, held: u64) -> Option<Tile>
        requires { TilingOk self.tiling × (stamp_count self.tiling ≤ length self.page.now) }
        ensures { IsDirtyTile self.entry.tiling held self.entry.page.now result }
    {
        grid_stamps::dirty_tile(self.page, self.tiling, held)
    }
}
