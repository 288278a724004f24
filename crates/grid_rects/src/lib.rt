// Rectangles of texels: the block grid's rule, what an upload writes, and the bytes of a copy.
//
// No public function has a `requires`: each answers or refuses every input.
#![tactic(auto)]

mod copies;
mod rect;
mod upload;

pub use copies::copy_bytes;
pub use rect::{Region, TexelRect, level_rect, rect_on_block_grid};
pub use upload::upload_written_rect;
