// Whether a texture's write history can bound the copies into its reused versions.
ghost use Rattle.std.specs.Prelude.{◌≡◌};
ghost use Rattle.grid_shapes.specs.Outcomes.{of_records};
ghost use Rattle.grid_shapes.specs.Shapes.{records_outcome};

use crate::refusal::Refusal;
use crate::shape::{VersionShape, is_shape};

// Returns whether every write of a texture of this shape is reported to the pool, so that the copies into its reused versions can be bounded.
// `usage` is the application's: bit 0 is render target, bit 1 depth-stencil. D3D9 lets only uploads, mip regeneration and an extended
// device's whole-surface StretchRect write a flat or cube colour texture that is neither, and the caller reports each. A volume, a depth texture and
// a render target take copies of whole levels.
pub fn records_every_write(s: VersionShape, usage: u64) -> Result<bool, Refusal>
    ensures { of_records result ≡ records_outcome s usage }
{
    if !is_shape(s) {
        return Err(Refusal::BadShape);
    }
    Ok((s.kind != 2) & (usage % 2 == 0) & (usage / 2 % 2 == 0) & (s.format != 7) & (s.format != 8))
}
