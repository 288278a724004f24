// What take_spare is refused by.
ghost use Rattle.std.specs.Prelude.{◌≡◌, true, ◌≤◌, IfOk};
ghost use Rattle.grid_shapes.specs.Outcomes.{outcome_number};
ghost use Rattle.grid_shapes.specs.Shapes.{is_shape};
ghost use Rattle.pool_tracking.specs.Begun.{fresh_stamps};
ghost use Rattle.pool_tracking.specs.Refusal.{most_stamps, tracking_refusal};
ghost use Rattle.pool_take_spare.specs.TakeRefusal.{Readable, IsRefusal};

use grid_shapes::{Refusal, VersionShape, is_shape, same_shape};
use pool_access::{has_id, shape_stamps, stamp_end, texture_at};
use pool_memory::Pool;
use pool_records::TEXTURE_STRIDE;
use pool_rules::LIMIT;

// Returns how many stamps a new history takes: none where writes are not recorded.
fn fresh_stamps(shape: VersionShape, records: bool) -> usize
    requires { is_shape shape ≡ true }
    ensures { result ≡ fresh_stamps shape records }
{
    if records { shape_stamps(shape) } else { 0 }
}

// Refuses a tracking that begins: of the `lent` stamps, `own` of those in use are given up for it. Returns how many stamps its history
// takes, so that they are added up once.
fn check_tracking(
    pool: Pool,
    lent: usize,
    own: usize,
    shape: VersionShape,
    records: bool,
) -> Result<usize, Refusal>
    requires { (is_shape shape ≡ true) × (lent ≤ most_stamps) × (own ≤ most_stamps)
        × (pool.stamps ≤ most_stamps) }
    ensures { (outcome_number result ≡ tracking_refusal lent own pool.stamps pool.trackings shape records)
        × IfOk result (λ stamps. stamps ≡ fresh_stamps shape records) }
{
    let stamps = fresh_stamps(shape, records);
    if records & (lent + own < pool.stamps + stamps) {
        return Err(Refusal::HistoryFull);
    }
    if LIMIT <= pool.trackings {
        return Err(Refusal::CounterSpent);
    }
    Ok(stamps)
}

// Refuses a take, and returns how many stamps the history of a tracking that begins takes. Record i is where the search for the id ended;
// `lent` stamps are lent. A texture tracked with the same shape takes nothing new, so that neither places nor the count of trackings can
// refuse it.
pub fn check_take(
    pool: Pool,
    textures: &[u64],
    lent: usize,
    i: usize,
    id: u64,
    shape: VersionShape,
    records: bool,
    seq: u64,
) -> Result<usize, Refusal>
    requires { Readable pool textures.now lent }
    ensures { IsRefusal pool textures.now lent i id shape records seq result }
{
    if !is_shape(shape) {
        return Err(Refusal::BadShape);
    }
    if LIMIT < seq {
        return Err(Refusal::BadSubmission);
    }
    if !has_id(textures, pool.tracked, i, id) {
        if textures.len() / TEXTURE_STRIDE <= pool.tracked {
            return Err(Refusal::TexturesFull);
        }
        return check_tracking(pool, lent, 0, shape, records);
    }
    let t = texture_at(textures, i);
    if same_shape(t.shape, shape) {
        return Ok(0);
    }
    let own = stamp_end(textures, pool.tracked, pool.stamps, i) - t.stamp as usize;
    check_tracking(pool, lent, own, shape, records)
}
