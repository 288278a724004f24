// The place of an id among the textures' records, by halving and then by a count of the last few: a call finds its texture in a few
// reads however many are tracked.
ghost use Rattle.std.specs.Prelude.{◌≡◌, true, ◌*◌, ◌≤◌, length};
ghost use Rattle.base_blocks.specs.Lists.{ascending};
ghost use Rattle.pool_records.specs.Find.{id_of, below};
ghost use Rattle.pool_records.specs.RecordConstants.{texture_stride};
ghost use Rattle.pool_records.specs.Texture.{textures_in};

use crate::constants::TEXTURE_STRIDE;

// Counts, of the first n records, those that have an id below this one. The id's texture is at that place, or nowhere.
pub fn find_texture(s: &[u64], n: usize, id: u64) -> usize
    requires { (texture_stride * n ≤ length s.now) × (ascending id_of (textures_in n s.now) ≡ true) }
    ensures { result ≡ below id (textures_in n s.now) }
{
    let mut lo = 0;
    let mut hi = n;
    // Halves by hand, for either end moves and no range has both.
    while 8 < hi - lo {
        let mid = lo + (hi - lo) / 2;
        if s[TEXTURE_STRIDE * mid] < id {
            lo = mid + 1;
        } else {
            hi = mid;
        }
    }
    // Among eight at most, a count without branches is quicker than more halving.
    let mut place = lo;
    for i in lo..hi {
        place += (s[TEXTURE_STRIDE * i] < id) as usize;
    }
    place
}
