// Whether a trim has anything to do. Mostly it has not, so that this is asked before the pass over the textures.
ghost use Rattle.std.specs.Prelude.{◌≡◌, ◌*◌, ◌≤◌, length};
ghost use Rattle.pool_trim.specs.NothingAged.{all_young};
ghost use Rattle.pool_records.specs.RecordConstants.{spare_stride, texture_stride};
ghost use Rattle.pool_records.specs.Texture.{spares_to};

use pool_records::{
    SPARE_PARKED_AT, SPARE_STRIDE, TEXTURE_DUE_AT, TEXTURE_SPARES_AT, TEXTURE_STRIDE,
};
use pool_rules::{SPARE_MAX_IDLE_SUBMITS, STATE_MAX_IDLE_SUBMITS};

// Tells whether no texture's due number has aged and no spare is idle past the bound. A texture's first spare is its oldest, so
// that one answers for them all; the ages are tested against the submission that far back, so that no sum can pass a word.
pub fn nothing_aged(textures: &[u64], spares: &[u64], tracked: usize, current: u64) -> bool
    requires { (texture_stride * tracked ≤ length textures.now) × (spare_stride * spares_to textures.now tracked ≤ length spares.now) }
    ensures { result ≡ all_young current textures.now spares.now tracked }
{
    let young = current.saturating_sub(SPARE_MAX_IDLE_SUBMITS);
    let recent = current.saturating_sub(STATE_MAX_IDLE_SUBMITS);
    let mut first = 0;
    for i in 0..tracked {
        if textures[TEXTURE_STRIDE * i + TEXTURE_DUE_AT] < recent {
            return false;
        }
        let own = textures[TEXTURE_STRIDE * i + TEXTURE_SPARES_AT] as usize;
        if own != 0 {
            if spares[SPARE_STRIDE * first + SPARE_PARKED_AT] < young {
                return false;
            }
        }
        first += own;
    }
    true
}
