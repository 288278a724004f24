// A version kept as its texture's newest spare.
ghost use Rattle.std.specs.Prelude.{◌≡◌, ◌+◌, ◌*◌, ◌-◌, ◌≤◌, ◌<◌, length};
ghost use Rattle.std.proofs.lemmas.List.Edits.{sets};
ghost use Rattle.base_blocks.specs.Blocks.{moved};
ghost use Rattle.base_blocks.specs.Lists.{total};
ghost use Rattle.pool_records.specs.Held.{HeldFits};
ghost use Rattle.pool_records.specs.Recorded.{RecordedFits};
ghost use Rattle.pool_records.specs.Spare.{write_spare};
ghost use Rattle.pool_records.specs.Texture.{write_texture, texture_in, textures_in};
ghost use Rattle.pool_park.specs.Park.{held_parked, spare_parked, one_more, spares_end};
ghost use Rattle.pool_records.specs.RecordConstants.{spare_stride, texture_stride};
ghost use Rattle.pool_rules.specs.RuleConstants.{most_places};

use pool_access::{first_spare, insert_spare, put_texture, texture_at};
use pool_records::{RetiringRecord, SpareRecord, TextureRecord};
use pool_rules::Held;

// Returns the writes that the version holds, or unknown if it was live through a submission that failed: it may lack a copy or an
// upload that the submission carried.
fn held_parked(v: RetiringRecord, failed: u64) -> Held
    ensures { result ≡ held_parked failed v }
{
    if (failed != 0) & (v.birth <= failed) {
        return Held::Unknown;
    }
    Held::Known(v.held)
}

// Returns the spare that the version becomes. Its idle time counts from `current`, the submission that it is parked in: a version
// that the GPU retired late is no older for it.
pub fn spare_parked(v: RetiringRecord, failed: u64, current: u64) -> SpareRecord
    ensures { result ≡ spare_parked failed current v }
{
    let held = held_parked(v, failed);
    SpareRecord {
        view: v.view,
        held,
        parked: current,
    }
}

// Returns a texture's record with one more spare.
fn one_more(t: TextureRecord) -> TextureRecord
    requires { t.spares ≤ most_places }
    ensures { result ≡ one_more t }
{
    TextureRecord {
        spares: t.spares + 1,
        ..t
    }
}

// Puts the version in as the newest spare of texture i, after those that it has. All `tracked` textures have `kept`.
pub fn keep_version(
    textures: &mut [u64],
    spares: &mut [u64],
    tracked: usize,
    kept: usize,
    i: usize,
    x: SpareRecord,
)
    requires { (texture_stride * i + texture_stride ≤ length textures.old) × RecordedFits (texture_in textures.old i).history
        × (spares_end textures.old i ≤ kept) × (kept ≤ most_places) × (spare_stride * kept + spare_stride ≤ length spares.old) × HeldFits x.held
        × (texture_stride * tracked ≤ length textures.old) × (i < tracked) × (total (λ t. t.spares) (textures_in tracked textures.old) ≡ kept) }
    ensures { (textures.new
        ≡ sets textures.old (texture_stride * i) (write_texture (one_more (texture_in textures.old i))))
        × (spares.new
        ≡ sets (moved spares.old (spare_stride * spares_end textures.old i + spare_stride)
        (spare_stride * spares_end textures.old i) (spare_stride * (kept - spares_end textures.old i)))
        (spare_stride * spares_end textures.old i) (write_spare x)) }
{
    let t = texture_at(textures, i);
    let end = first_spare(textures, tracked, kept, i) + t.spares as usize;
    insert_spare(spares, kept, end, x);
    put_texture(textures, i, one_more(t));
}
