// One axis of a level, cut into tiles.
ghost use Rattle.std.specs.Prelude.{◌≡◌, ◌/◌, ◌<◌};
ghost use Rattle.grid_axes.specs.Axes.{AxisOk, tiles_of, touched_tiles, SpanIn, span_start, span_size};

use crate::constants::MIN_TILE_TEXELS;

// Texels along the axis, and texels along a tile's side. It holds no fact of its own: `axis_in` answers for every table of that length and promises nothing
// of the edge, so the functions that need a level's axis ask for `AxisOk`.
#[derive(Clone, Copy, PartialEq, Eq)]
pub struct Axis {
    pub extent: u64,
    pub edge: u64,
}

// Tiles from the first to the last, both counted.
#[derive(Clone, Copy, PartialEq, Eq)]
pub struct Span {
    pub first: u64,
    pub last: u64,
}

// Returns the tile that a texel lies in. An axis of up to 512 texels has tiles of 16, which need no division.
fn tile_of(texel: u64, edge: u64) -> u64
    requires { 0 < edge }
    ensures { result ≡ texel / edge }
{
    if edge == MIN_TILE_TEXELS {
        return texel / MIN_TILE_TEXELS;
    }
    texel / edge
}

// Returns the tiles along the axis.
pub fn tiles(a: Axis) -> u64
    requires { AxisOk a }
    ensures { result ≡ tiles_of a }
{
    tile_of(a.extent + (a.edge - 1), a.edge)
}

// Returns the tiles that `size` texels from `start` on touch, cut to the level, or none for an empty cut.
pub fn touched_tiles(a: Axis, start: u64, size: u64) -> Option<Span>
    requires { AxisOk a }
    ensures { result ≡ touched_tiles a start size }
{
    if a.extent <= start {
        return None;
    }
    if size == 0 {
        return None;
    }
    let room = a.extent - start;
    let last = start + size.min(room) - 1;
    Some(Span {
        first: tile_of(start, a.edge),
        last: tile_of(last, a.edge),
    })
}

// Returns the first texel of whole tiles.
pub fn span_start(a: Axis, s: Span) -> u64
    requires { AxisOk a × SpanIn a s }
    ensures { result ≡ span_start a s }
{
    s.first * a.edge
}

// Returns how many texels whole tiles have in the level.
pub fn span_size(a: Axis, s: Span) -> u64
    requires { AxisOk a × SpanIn a s }
    ensures { result ≡ span_size a s }
{
    let start = s.first * a.edge;
    let end = (s.last + 1) * a.edge;
    end.min(a.extent) - start
}
