// The creation shape that a pooled version shares with the texture it serves.
ghost use Rattle.std.specs.Prelude.{◌≡◌, true, ℕ, ◌*◌, ◌≤◌, ◌<◌};
ghost use Rattle.base_blocks.specs.Lists.{ceil_div, listed, total};
ghost use Rattle.grid_shapes.specs.Formats.{block_edge};
ghost use Rattle.grid_shapes.specs.Outcomes.{of_bytes};
ghost use Rattle.grid_shapes.specs.Shapes.{is_shape, same_shape, slices_of, level_extent, level_depth, level_blocks, bytes_of, bytes_outcome};

use crate::format::{block_bytes, block_edge};
use crate::refusal::Refusal;

// Every field of the Rust's creation descriptor but the id, which only labels the texture: spares made for one shape cannot serve
// another. Storage mode, usage and the four swizzle bytes (red to alpha) are compared only.
#[derive(Clone, Copy, PartialEq, Eq)]
pub struct VersionShape {
    pub format: u64,
    pub width: u64,
    pub height: u64,
    pub depth: u64,
    pub levels: u64,
    pub kind: u64,
    pub storage: u64,
    pub usage: u64,
    pub red: u64,
    pub green: u64,
    pub blue: u64,
    pub alpha: u64,
}

// Returns whether the shape passes refusal 2: its extents, levels, kind and format are ones that the pool takes.
pub fn is_shape(s: VersionShape) -> bool
    ensures { result ≡ is_shape s }
{
    (s.width <= 16384)
        & (s.height <= 16384)
        & (s.depth <= 2048)
        & (1 <= s.levels)
        & (s.levels <= 15)
        & (s.kind <= 2)
        & (s.format <= 8)
}

// Returns whether two shapes agree in every field, so that a version of one can serve the other.
pub fn same_shape(a: VersionShape, b: VersionShape) -> bool
    ensures { result ≡ same_shape a b }
{
    a == b
}

// Returns the array slices: six faces for a cube, one otherwise.
pub fn slices(s: VersionShape) -> u64
    ensures { result ≡ slices_of s }
{
    if s.kind == 1 { 6 } else { 1 }
}

// Returns the extent of mip `level` along an axis whose level 0 has `base` texels.
pub fn level_extent(base: u64, level: u64) -> u64
    ensures { result ≡ level_extent base level }
{
    // A shift by 64 or more has no meaning, and would leave nothing of any base.
    if 63 < level {
        return 1;
    }
    // No axis and no level has fewer texels than one.
    (base.max(1) >> level).max(1)
}

// Returns the depth of a level of a volume; 1 otherwise.
pub fn level_depth(s: VersionShape, level: u64) -> u64
    ensures { result ≡ level_depth s level }
{
    if s.kind == 2 {
        level_extent(s.depth, level)
    } else {
        1
    }
}

// Returns the blocks along an axis, rounded up: a level narrower than a block still takes one. The edges that formats have come first, since they need
// no division.
fn blocks(extent: u64, edge: u64) -> u64
    requires { (extent ≤ 16384) × (0 < edge) × (edge ≤ 16) }
    ensures { result ≡ ceil_div extent edge }
{
    if edge == 1 {
        return extent;
    }
    if edge == 4 {
        return (extent + 3) / 4;
    }
    (extent + (edge - 1)) / edge
}

// Returns the blocks of a level of those extents, in one slice.
fn level_blocks(across: u64, down: u64, deep: u64, edge: u64) -> u64
    requires { (across ≤ 16384) × (down ≤ 16384) × (deep ≤ 2048) × (0 < edge) × (edge ≤ 16) }
    ensures { result ≡ ceil_div across edge * ceil_div down edge * deep }
{
    blocks(across, edge) * blocks(down, edge) * deep
}

// Returns the blocks of every level, in one slice. A level's extents are the last one's halved.
fn shape_blocks(s: VersionShape, edge: u64) -> u64
    requires { (is_shape s ≡ true) × (edge ≡ block_edge s.format) }
    ensures { result ≡ total (level_blocks s) (listed (λ (level : ℕ). level) 0 s.levels) }
{
    let mut across = level_extent(s.width, 0);
    let mut down = level_extent(s.height, 0);
    let mut deep = level_depth(s, 0);
    let mut sum = level_blocks(across, down, deep, edge);
    for _ in 1..s.levels {
        across = (across / 2).max(1);
        down = (down / 2).max(1);
        deep = (deep / 2).max(1);
        sum += level_blocks(across, down, deep, edge);
    }
    sum
}

// Returns the bytes of one version, every slice and level counted, of a shape that passes refusal 2. The edge's loop is chosen before it runs.
pub fn shape_bytes(s: VersionShape) -> u64
    requires { is_shape s ≡ true }
    ensures { result ≡ bytes_of s }
{
    let bytes = block_bytes(s.format) * slices(s);
    let edge = block_edge(s.format);
    if edge == 1 {
        return shape_blocks(s, 1) * bytes;
    }
    shape_blocks(s, edge) * bytes
}

// Returns the bytes of one version, or refuses what is no shape.
pub fn bytes(s: VersionShape) -> Result<u64, Refusal>
    ensures { of_bytes result ≡ bytes_outcome s }
{
    if is_shape(s) {
        Ok(shape_bytes(s))
    } else {
        Err(Refusal::BadShape)
    }
}
