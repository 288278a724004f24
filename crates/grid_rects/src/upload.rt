// The texels that an upload writes.
ghost use Rattle.std.specs.Prelude.{◌≡◌};
ghost use Rattle.grid_rects.specs.Rects.{of_upload};
ghost use Rattle.grid_rects.specs.Rects.{upload_outcome};

use crate::rect::{TexelRect, level_rect, rect_on_block_grid};
use grid_shapes::{Refusal, block_edge};

// Returns what an upload of `rect` writes into a level of `width` by `height` texels. `compressed` is the source format of a block-compressed upload, and
// none for one by texel. A compressed rectangle off the block grid has no copy of its own, so the whole level is written instead.
pub fn upload_written_rect(
    rect: TexelRect,
    width: u64,
    height: u64,
    compressed: Option<u64>,
) -> Result<TexelRect, Refusal>
    ensures { of_upload result ≡ upload_outcome rect width height compressed }
{
    let Some(format) = compressed else {
        return Ok(rect);
    };
    if 8 < format {
        return Err(Refusal::BadShape);
    }
    if rect_on_block_grid(block_edge(format), rect, width, height) {
        Ok(rect)
    } else {
        Ok(level_rect(width, height))
    }
}
