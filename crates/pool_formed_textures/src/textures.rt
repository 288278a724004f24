// The textures with their spares and histories, the cheap conditions first.
ghost use Rattle.std.specs.Prelude.{◌≡◌, ◌*◌, ◌≤◌, length};
ghost use Rattle.pool_formed_textures.specs.Textures.{textures_fit};
ghost use Rattle.pool_records.specs.RecordConstants.{spare_stride, texture_stride};
ghost use Rattle.pool_rules.specs.RuleConstants.{most_places};

use crate::histories_fit::histories_fit;
use crate::records_fit::{ids_ascend, records_fit};
use crate::runs_fit::{parked_bytes, runs_fit};
use crate::spares_fit::spares_fit;
use pool_memory::Pool;

pub fn textures_fit(
    pool: Pool,
    textures: &[u64],
    spares: &[u64],
    newest: &[u64],
    stamps: &[u64],
) -> bool
    requires { (texture_stride * pool.tracked ≤ length textures.now) × (spare_stride * pool.kept ≤ length spares.now) × (pool.kept ≤ most_places)
        × (pool.grids ≤ length newest.now) × (pool.stamps ≤ length stamps.now) }
    ensures { result ≡ textures_fit pool textures.now spares.now newest.now stamps.now }
{
    let n = pool.tracked;
    if !ids_ascend(textures, n) {
        return false;
    }
    if !records_fit(textures, n) {
        return false;
    }
    if !runs_fit(textures, n, pool.kept) {
        return false;
    }
    if !spares_fit(spares, pool.kept) {
        return false;
    }
    if pool.parked != parked_bytes(textures, n) {
        return false;
    }
    histories_fit(textures, n, pool.grids, pool.stamps, newest, stamps)
}
