// What was written since a count, on one page.
ghost use Rattle.std.specs.Prelude.{◌≡◌, ◌*◌, ◌≤◌, ◌<◌, length};
ghost use Rattle.grid_axes.specs.Axes.{SpanIn, one_tile, widened};
ghost use Rattle.grid_stamps.specs.Grids.{TilingOk, stamp_count, dirty_tiles, grid_in, box_of, box_since};
ghost use Rattle.grid_stamps.specs.Scans.{nothing_seen, visited, all_joined, dirty_row};
ghost use Rattle.grid_axes.specs.AxisConstants.{max_tiles_per_axis};

use crate::grid::Tiling;
use grid_axes::{Span, span_size, span_start, tiles};
use grid_rects::TexelRect;

// The columns and the rows of the dirty tiles seen so far, from the first to the last.
#[derive(Clone, Copy, PartialEq, Eq)]
pub struct Seen {
    pub columns: Span,
    pub rows: Span,
}

// Returns the span of one tile.
fn one_tile(tile: u64) -> Span
    ensures { result ≡ one_tile tile }
{
    Span {
        first: tile,
        last: tile,
    }
}

// Returns the smallest span around a span and a tile.
fn widened(span: Span, tile: u64) -> Span
    ensures { result ≡ widened span tile }
{
    Span {
        first: span.first.min(tile),
        last: span.last.max(tile),
    }
}

// Adds one tile to what was seen, if its stamp is above `held`.
fn visit(seen: Option<Seen>, stamp: u64, held: u64, column: u64, row: u64) -> Option<Seen>
    ensures { result ≡ visited seen stamp held column row }
{
    if stamp <= held {
        return seen;
    }
    Some(match seen {
        Some(all) => Seen {
            columns: widened(all.columns, column),
            rows: widened(all.rows, row),
        },
        None => Seen {
            columns: one_tile(column),
            rows: one_tile(row),
        },
    })
}

// Adds one row of stamps to what was seen.
fn visit_row(seen: Option<Seen>, line: &[u64], held: u64, row: u64) -> Option<Seen>
    ensures { result ≡ all_joined seen (dirty_row (length line.now) row held line.now) }
{
    // Most rows are clean, and the scan for that goes by four.
    if base_blocks::within(line, held) {
        return seen;
    }
    let mut all = seen;
    for (column, stamp) in line.iter().enumerate() {
        all = visit(all, *stamp, held, column as u64, row);
    }
    all
}

// Returns what is seen on every row of a page.
fn visit_page(page: &[u64], columns: usize, rows: usize, held: u64) -> Option<Seen>
    requires { (columns * rows ≤ length page.now) × (columns ≤ max_tiles_per_axis) × (rows ≤ max_tiles_per_axis) }
    ensures { result ≡ all_joined nothing_seen (dirty_tiles columns rows held page.now) }
{
    let mut seen = None;
    for row in 0..rows {
        let start = row * columns;
        let end = start + columns;
        seen = visit_row(seen, &page[start..end], held, row as u64);
    }
    seen
}

// Returns whole tiles in texels, cut to the level.
fn box_of(tiling: Tiling, columns: Span, rows: Span) -> TexelRect
    requires { TilingOk tiling × SpanIn tiling.across columns × SpanIn tiling.down rows }
    ensures { result ≡ box_of tiling columns rows }
{
    TexelRect {
        x: span_start(tiling.across, columns),
        y: span_start(tiling.down, rows),
        width: span_size(tiling.across, columns),
        height: span_size(tiling.down, rows),
    }
}

// Returns the smallest box of whole tiles around those stamped above `held`, cut to the level, or none if there is none. A version that holds `held` writes
// lacks no texel outside it. `newest` spares the scan where nothing was written since.
pub fn written_since(page: &[u64], tiling: Tiling, newest: u64, held: u64) -> Option<TexelRect>
    requires { TilingOk tiling × (stamp_count tiling ≤ length page.now) }
    ensures { result ≡ box_since tiling held (grid_in tiling newest page.now) }
{
    if newest <= held {
        return None;
    }
    let columns = tiles(tiling.across) as usize;
    let rows = tiles(tiling.down) as usize;
    let seen = visit_page(page, columns, rows, held)?;
    Some(box_of(tiling, seen.columns, seen.rows))
}
