// One texture gives up its oldest spares: they go to the end of the destroy ring, the others move down after the spares of the
// textures before, and the texture's record counts those that are left.
ghost use Rattle.std.specs.Prelude.{◌≡◌, ◌+◌, ◌-◌, ◌*◌, ◌≤◌, ◌<◌, length, set};
ghost use Rattle.base_blocks.specs.Blocks.{moved};
ghost use Rattle.base_tables.specs.Rings.{laid};
ghost use Rattle.pool_records.specs.Doomed.{write_doomed};
ghost use Rattle.pool_take_doomed.specs.Given.{given_records};
ghost use Rattle.pool_records.specs.RecordConstants.{doomed_stride, spare_stride, texture_spares_at, texture_stride};

use base_blocks::shift_down;
use pool_records::{SPARE_STRIDE, TEXTURE_SPARES_AT, TEXTURE_STRIDE};
use pool_take_doomed::push_spares;

// Gives up the oldest `count`, of `bytes` bytes each, of the n spares that texture i has from place `from` on. The others move down
// to place `to`. The destroy ring has `queued` versions.
pub fn give_spares(
    textures: &mut [u64],
    i: usize,
    doomed: &mut [u64],
    cap: usize,
    first: usize,
    queued: usize,
    spares: &mut [u64],
    from: usize,
    to: usize,
    n: usize,
    count: usize,
    bytes: u64,
)
    requires { (texture_stride * i + texture_stride ≤ length textures.old) × (doomed_stride * cap ≤ length doomed.old) × (first < cap)
        × (queued + count ≤ cap)
        × (spare_stride * (from + n) ≤ length spares.old) × (to ≤ from) × (count ≤ n) }
    ensures { (textures.new ≡ set textures.old (texture_stride * i + texture_spares_at) (n - count))
        × (doomed.new ≡ laid doomed_stride write_doomed cap first queued (given_records spares.old bytes from count) doomed.old)
        × (spares.new ≡ moved spares.old (spare_stride * to) (spare_stride * (from + count)) (spare_stride * (n - count))) }
{
    push_spares(doomed, cap, first, queued, spares, from, count, bytes);
    shift_down(
        spares,
        SPARE_STRIDE * to,
        SPARE_STRIDE * (from + count - to),
        SPARE_STRIDE * (n - count),
    );
    textures[TEXTURE_STRIDE * i + TEXTURE_SPARES_AT] = (n - count) as u64;
}
