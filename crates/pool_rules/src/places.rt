// How many numbers are lent for the grids.
ghost use Rattle.std.specs.Prelude.{◌≡◌, ◌*◌, ◌≤◌, min};
ghost use Rattle.pool_rules.specs.RuleConstants.{grid_stride, most_grids, most_places};

use crate::constants::{GRID_STRIDE, MOST_GRIDS};

// Returns how long `newest` is: two numbers for each grid that can be in use. These are as many as the textures can have, and no more
// than there are stamps, since every grid has one at least.
pub fn newest_length(textures: usize, stamps: usize) -> usize
    requires { textures ≤ most_places }
    ensures { result ≡ grid_stride * min (most_grids * textures) stamps }
{
    GRID_STRIDE * stamps.min(MOST_GRIDS * textures)
}
