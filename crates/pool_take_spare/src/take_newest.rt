// The rename of a texture that is tracked with the same shape: it takes the newest spare.
ghost use Rattle.std.specs.Prelude.{◌≡◌};
ghost use Rattle.pool_take_spare.specs.Answer.{taken_told};
ghost use Rattle.pool_take_spare.specs.TakeNewest.{renamed_record, NewestFits, newest_taken};

use crate::answer::TakeAnswer;
use base_tables::remove_records;
use pool_access::{put_texture, spare_at, spares_before, texture_at};
use pool_memory::{Pool, TakenVersion};
use pool_records::{SPARE_STRIDE, TextureRecord};

// Returns the texture's record after the rename, which keeps it tracked for another STATE_MAX_IDLE_SUBMITS submissions.
fn renamed(t: TextureRecord, seq: u64, left: u64) -> TextureRecord
    ensures { result ≡ renamed_record seq left t }
{
    TextureRecord {
        rename: seq,
        spares: left,
        ..t
    }
}

// Renames texture i and takes its newest spare, if it has one. The newest goes first, so that the oldest are left to age out when
// the texture is renamed less.
pub fn take_newest(
    pool: Pool,
    textures: &mut [u64],
    spares: &mut [u64],
    i: usize,
    seq: u64,
) -> TakeAnswer
    requires { NewestFits pool textures.old spares.old i }
    ensures { (taken_told result.taken, (result.pool, (textures.new, spares.new)))
        ≡ newest_taken pool textures.old spares.old i seq }
{
    let t = texture_at(textures, i);
    if t.spares == 0 {
        put_texture(textures, i, renamed(t, seq, 0));
        return TakeAnswer {
            pool,
            taken: Ok(None),
        };
    }
    let left = t.spares - 1;
    let k = spares_before(textures, i) + left as usize;
    let spare = spare_at(spares, k);
    put_texture(textures, i, renamed(t, seq, left));
    remove_records(spares, SPARE_STRIDE, pool.kept, k, 1);
    TakeAnswer {
        pool: Pool {
            kept: pool.kept - 1,
            parked: pool.parked - t.bytes,
            ..pool
        },
        taken: Ok(Some(TakenVersion {
            view: spare.view,
            held: spare.held,
        })),
    }
}
