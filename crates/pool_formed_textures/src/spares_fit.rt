// The spares, which stand packed whichever texture they are of.
ghost use Rattle.std.specs.Prelude.{◌≡◌, ◌*◌, ◌≤◌, length};
ghost use Rattle.base_blocks.specs.Lists.{all, listed};
ghost use Rattle.pool_memory.specs.IsPool.{is_spare};
ghost use Rattle.pool_formed_textures.specs.Textures.{model_spare_at};
ghost use Rattle.pool_records.specs.RecordConstants.{spare_stride};

use pool_records::{SPARE_HELD_AT, SPARE_PARKED_AT, SPARE_STRIDE};
use pool_rules::LIMIT;

// Tests the first n spares: what each holds is unknown (0) or at most 2^48 (one more stands there), and so is its parking number.
pub fn spares_fit(spares: &[u64], n: usize) -> bool
    requires { spare_stride * n ≤ length spares.now }
    ensures { result ≡ all is_spare (listed (model_spare_at spares.now) 0 n) }
{
    for k in 0..n {
        if spares[SPARE_STRIDE * k + SPARE_HELD_AT] > LIMIT + 1 {
            return false;
        }
        if spares[SPARE_STRIDE * k + SPARE_PARKED_AT] > LIMIT {
            return false;
        }
    }
    true
}
