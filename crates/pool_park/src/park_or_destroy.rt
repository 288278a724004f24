// Whether the hand's version is kept or destroyed, and what `park` refuses.
ghost use Rattle.std.specs.Prelude.{◌≡◌, ◌*◌, ◌≤◌, length};
ghost use Rattle.grid_shapes.specs.Outcomes.{outcome_number};
ghost use Rattle.pool_records.specs.Texture.{texture_in};
ghost use Rattle.pool_park.specs.Park.{park_refusal, parking_of};
ghost use Rattle.pool_records.specs.RecordConstants.{texture_stride};
ghost use Rattle.pool_records.specs.Find.{has_id};

use grid_shapes::Refusal;
use pool_access::{has_id, texture_at};
use pool_memory::Pool;
use pool_records::RetiringRecord;
use pool_rules::LIMIT;

// What becomes of the version, with its bytes.
#[derive(Clone, Copy)]
pub enum Parking {
    Destroyed(u64),
    Kept(u64),
}

// Refuses a submission past the limit, and a park with no version in the hand.
pub fn check_park(pool: Pool, failed: u64, current: u64) -> Result<(), Refusal>
    ensures { outcome_number result ≡ park_refusal pool failed current }
{
    if (failed > LIMIT) | (current > LIMIT) {
        return Err(Refusal::BadSubmission);
    }
    if pool.popped == 0 {
        return Err(Refusal::HandEmpty);
    }
    Ok(())
}

// Decides by the texture's record, at which the search for the version's id ended. A version is destroyed if its texture is gone or
// was tracked again since it retired, under memory pressure, or if it would take the spares past the cap. The cap is compared by
// what is left of it, so that no sum can wrap.
pub fn park_or_destroy(
    pool: Pool,
    pressed: bool,
    textures: &[u64],
    i: usize,
    v: RetiringRecord,
) -> Parking
    requires { (texture_stride * pool.tracked ≤ length textures.now)
        × (pool.parked ≤ pool.cap) }
    ensures { result
        ≡ parking_of pool pressed (has_id textures.now pool.tracked i v.id) (texture_in textures.now i) v }
{
    if !has_id(textures, pool.tracked, i, v.id) {
        return Parking::Destroyed(v.bytes);
    }
    let t = texture_at(textures, i);
    if t.epoch != v.epoch {
        return Parking::Destroyed(v.bytes);
    }
    let bytes = t.bytes;
    if pressed | (pool.cap - pool.parked < bytes) {
        return Parking::Destroyed(bytes);
    }
    Parking::Kept(bytes)
}
