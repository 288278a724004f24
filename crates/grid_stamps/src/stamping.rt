// A write's stamps on one page.
ghost use Rattle.std.specs.Prelude.{◌≡◌, ◌+◌, ◌-◌, ◌*◌, ◌≤◌, ◌<◌, length};
ghost use Rattle.base_blocks.specs.Lists.{over};
ghost use Rattle.grid_stamps.specs.Grids.{TilingOk, stamp_count, grid_in, stamped_by};
ghost use Rattle.grid_stamps.specs.Scans.{rows_stamped, StampRoom, tiles_stamped};
ghost use Rattle.grid_axes.specs.AxisConstants.{max_tiles_per_axis};

use crate::grid::Tiling;
use grid_axes::{Span, tiles, touched_tiles};
use grid_rects::TexelRect;

// Sets `width` stamps from column `left` on to `n`, in the rows from `top` up to `bottom`.
fn stamp_rows(
    page: &mut [u64],
    columns: usize,
    left: usize,
    width: usize,
    top: usize,
    bottom: usize,
    n: u64,
)
    requires { (left + width ≤ columns) × (bottom * columns ≤ length page.old) × (columns ≤ max_tiles_per_axis) × (bottom ≤ max_tiles_per_axis)
        × (top ≤ bottom) }
    ensures { page.new ≡ rows_stamped columns left width n top (bottom - top) page.old }
{
    for row in top..bottom {
        base_blocks::fill(page, row * columns + left, width, n);
    }
}

// Sets the tiles of both spans to `n`, in a grid of `columns` columns.
fn stamp_tiles(page: &mut [u64], columns: usize, across: Span, down: Span, n: u64)
    requires { StampRoom columns across down (length page.old) }
    ensures { page.new ≡ tiles_stamped columns across down n page.old }
{
    stamp_rows(
        page,
        columns,
        across.first as usize,
        (across.last + 1 - across.first) as usize,
        down.first as usize,
        (down.last + 1) as usize,
        n,
    );
}

// Stamps every tile that the rectangle, cut to the level, touches, and returns the grid's newest stamp: `n`, unless the cut is empty.
pub fn stamp(page: &mut [u64], tiling: Tiling, rect: TexelRect, n: u64, newest: u64) -> u64
    requires { TilingOk tiling × (stamp_count tiling ≤ length page.old) }
    ensures { (result ≡ (stamped_by tiling rect n (grid_in tiling newest page.old)).newest)
        × (page.new ≡ over (stamped_by tiling rect n (grid_in tiling newest page.old)).stamps page.old) }
{
    let Some(columns) = touched_tiles(tiling.across, rect.x, rect.width) else {
        return newest;
    };
    let Some(rows) = touched_tiles(tiling.down, rect.y, rect.height) else {
        return newest;
    };
    stamp_tiles(page, tiles(tiling.across) as usize, columns, rows, n);
    n
}
