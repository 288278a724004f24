// What the textures' records claim together: spares and their bytes.
ghost use Rattle.std.specs.Prelude.{◌≡◌, true, ◌*◌, ◌≤◌, eqb, length};
ghost use Rattle.base_blocks.specs.Lists.{all, total};
ghost use Rattle.pool_formed_textures.specs.Textures.{is_record};
ghost use Rattle.pool_records.specs.RecordConstants.{texture_stride};
ghost use Rattle.pool_rules.specs.RuleConstants.{most_places};
ghost use Rattle.pool_records.specs.Texture.{record_spares, record_bytes, textures_in};

use crate::records_fit::record_bytes;
use base_tables::record_at;
use pool_records::{TEXTURE_SPARES_AT, TEXTURE_STRIDE};

// Tests that the first n records claim just `kept` spares. Counts down what is left of them, so that no sum can pass a word.
pub fn runs_fit(textures: &[u64], n: usize, kept: usize) -> bool
    requires { texture_stride * n ≤ length textures.now }
    ensures { result ≡ eqb kept (total record_spares (textures_in n textures.now)) }
{
    let mut spares = kept as u64;
    for i in 0..n {
        let p = record_at(textures, TEXTURE_STRIDE, i);
        let k = p[TEXTURE_SPARES_AT];
        if k > spares {
            return false;
        }
        spares -= k;
    }
    spares == 0
}

// Returns the bytes of the first n textures' spares.
pub fn parked_bytes(textures: &[u64], n: usize) -> u64
    requires { (texture_stride * n ≤ length textures.now) × (all is_record (textures_in n textures.now) ≡ true)
        × (total record_spares (textures_in n textures.now) ≤ most_places) }
    ensures { result ≡ total record_bytes (textures_in n textures.now) }
{
    let mut sum = 0;
    for i in 0..n {
        sum += record_bytes(record_at(textures, TEXTURE_STRIDE, i));
    }
    sum
}
