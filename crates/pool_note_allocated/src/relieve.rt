// Relief: each texture, in ascending id, gives the spares that were picked of it.
ghost use Rattle.std.specs.Prelude.{◌≡◌, true, ◌+◌, ◌-◌, ◌*◌, ◌≤◌, ◌<◌, ◌^◌, length, set};
ghost use Rattle.base_blocks.specs.Blocks.{moved};
ghost use Rattle.base_tables.specs.Rings.{laid};
ghost use Rattle.grid_shapes.specs.Shapes.{bytes_of};
ghost use Rattle.pool_records.specs.Texture.{texture_in, textures_in};
ghost use Rattle.pool_records.specs.Doomed.{write_doomed};
ghost use Rattle.pool_memory.specs.Lent.{lent_by, at_entry};
ghost use Rattle.pool_memory.specs.IsPool.{is_pool};
ghost use Rattle.pool_take_doomed.specs.Given.{given_records};
ghost use Rattle.pool_relief_line.specs.Line.{IsLine, taken_at, gives};
ghost use Rattle.pool_relief_line.specs.Parked.{parkings, bytes_from, HasBytes};
ghost use Rattle.pool_note_allocated.specs.NoteAllocated.{Relieves};
ghost use Rattle.pool_records.specs.RecordConstants.{doomed_stride, spare_stride, texture_spares_at, texture_stride};

use crate::give::give_spares;
use pool_memory::{PacingBook, Pool};
use pool_records::{RETIRING_STRIDE, TEXTURE_SPARES_AT, TEXTURE_STRIDE};
use pool_relief_line::{texture_gives, version_bytes};

// What one texture did: how many spares it had, how many of them it gave, their bytes, and the bytes freed by then.
#[derive(Clone, Copy)]
pub struct Step {
    pub spares: usize,
    pub count: usize,
    pub bytes: u64,
    pub freed: u64,
}

// Lets texture i give what was picked of it. Its spares begin at place `from`; those that it keeps move down to place `to`.
fn relieve_texture(
    textures: &mut [u64],
    i: usize,
    doomed: &mut [u64],
    cap: usize,
    first: usize,
    queued: usize,
    spares: &mut [u64],
    from: usize,
    to: usize,
    line: u64,
    freed: u64,
    excess: u64,
) -> Step
    requires { (texture_stride * i + texture_stride ≤ length textures.old) × HasBytes (texture_in textures.old i)
        × (doomed_stride * cap ≤ length doomed.old) × (first < cap) × (queued + (texture_in textures.old i).spares ≤ cap)
        × (spare_stride * (from + (texture_in textures.old i).spares) ≤ length spares.old) × (to ≤ from)
        × (freed + bytes_of (texture_in textures.old i).shape * (texture_in textures.old i).spares < 2 ^ 64) }
    ensures { (result.spares ≡ (texture_in textures.old i).spares) × (result.count ≤ result.spares)
        × (result.count ≡ gives freed excess (bytes_of (texture_in textures.old i).shape) line (parkings spares.old from result.spares))
        × (result.bytes ≡ bytes_of (texture_in textures.old i).shape * result.count)
        × (result.freed ≡ freed + bytes_of (texture_in textures.old i).shape
        * taken_at freed excess (bytes_of (texture_in textures.old i).shape) line (parkings spares.old from result.spares))
        × (textures.new ≡ set textures.old (texture_stride * i + texture_spares_at) (result.spares - result.count))
        × (doomed.new ≡ laid doomed_stride write_doomed cap first queued
        (given_records spares.old (bytes_of (texture_in textures.old i).shape) from result.count) doomed.old)
        × (spares.new ≡ moved spares.old (spare_stride * to) (spare_stride * (from + result.count)) (spare_stride * (result.spares - result.count))) }
{
    let n = textures[TEXTURE_STRIDE * i + TEXTURE_SPARES_AT] as usize;
    let bytes = version_bytes(textures, i);
    let given = texture_gives(spares, from, n, line, bytes, freed, excess);
    let count = given.count;
    give_spares(
        textures, i, doomed, cap, first, queued, spares, from, to, n, count, bytes,
    );
    Step {
        spares: n,
        count,
        bytes: bytes * count as u64,
        freed: given.freed,
    }
}

// What relief left and took: how many spares are kept, and the bytes of those that were given up.
#[derive(Clone, Copy)]
pub struct Relief {
    pub kept: usize,
    pub bytes: u64,
}

// Lets every texture give what was picked of it, by the line. `freed` are the bytes queued already and those parked before the
// line.
pub fn relieve(
    pool: Pool,
    book: PacingBook,
    textures: &mut [u64],
    retiring: &[u64],
    doomed: &mut [u64],
    spares: &mut [u64],
    newest: &[u64],
    stamps: &[u64],
    line: u64,
    freed: u64,
    excess: u64,
) -> Relief
    requires { (is_pool (lent_by pool book textures.old retiring.now doomed.old spares.old newest.now stamps.now) ≡ true)
        × IsLine pool.dooming excess (λ k. bytes_from spares.old k 0 (textures_in pool.tracked textures.old)) line
        × (freed ≡ pool.dooming + bytes_from spares.old line 0 (textures_in pool.tracked textures.old)) }
    ensures { Relieves (at_entry pool book textures.old retiring.now doomed.old spares.old newest.now stamps.now)
        excess result.kept result.bytes textures.new doomed.new spares.new }
{
    let cap = retiring.len() / RETIRING_STRIDE;
    let mut from = 0;
    let mut kept = 0;
    let mut bytes = 0;
    let mut sum = freed;
    for i in 0..pool.tracked {
        let queued = pool.doomed + (from - kept);
        let step = relieve_texture(
            textures, i, doomed, cap, pool.first, queued, spares, from, kept, line, sum, excess,
        );
        kept += step.spares - step.count;
        from += step.spares;
        bytes += step.bytes;
        sum = step.freed;
    }
    Relief { kept, bytes }
}
