// A rectangle of texels in one level, and the block grid's rule for it.
ghost use Rattle.std.specs.Prelude.{◌≡◌};
ghost use Rattle.grid_rects.specs.Rects.{whole_level, side_on_grid, rect_on_grid};

#[derive(Clone, Copy, PartialEq, Eq)]
pub struct TexelRect {
    pub x: u64,
    pub y: u64,
    pub width: u64,
    pub height: u64,
}

// A part of a level: all of it, or a rectangle. `Option<TexelRect>` is no plainer: its `None` would mean the whole level.
#[derive(Clone, Copy)]
pub enum Region {
    Whole,
    Part(TexelRect),
}

// Returns the whole of a level of `width` by `height` texels.
pub fn level_rect(width: u64, height: u64) -> TexelRect
    ensures { result ≡ whole_level width height }
{
    TexelRect {
        x: 0,
        y: 0,
        width,
        height,
    }
}

// Returns whether one side of a rectangle, `size` texels from `start` on along an axis of `extent`, starts and ends on the block grid. The last block
// of a level may be cut off, so a side that ends with the level passes.
pub fn side_on_grid(block: u64, start: u64, size: u64, extent: u64) -> bool
    ensures { result ≡ side_on_grid block start size extent }
{
    // A multiple of 0 is 0 alone, as in the Rust, so that no block is refused.
    if !start.is_multiple_of(block) {
        return false;
    }
    if size.is_multiple_of(block) {
        return true;
    }
    // The sum of start and size could wrap, so it is not made.
    if extent < start {
        return false;
    }
    size == extent - start
}

// Returns whether a rectangle of a level of `width` by `height` texels lies on the grid of `block`-texel blocks.
pub fn rect_on_block_grid(block: u64, rect: TexelRect, width: u64, height: u64) -> bool
    ensures { result ≡ rect_on_grid block rect width height }
{
    side_on_grid(block, rect.x, rect.width, width)
        & side_on_grid(block, rect.y, rect.height, height)
}
