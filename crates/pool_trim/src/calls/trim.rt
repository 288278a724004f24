// trim: every spare idle past the bound is queued for destruction, and idle textures are tracked no longer.
ghost use Rattle.std.specs.Prelude.{◌≡◌, true, ◌+◌, ◌*◌, ◌≤◌, length};
ghost use Rattle.pool_records.specs.Recorded.{RecordedFits};
ghost use Rattle.pool_records.specs.Texture.{texture_in};
ghost use Rattle.base_blocks.specs.Blocks.{moved};
ghost use Rattle.pool_memory.specs.Lent.{lent, lent_by, at_exit};
ghost use Rattle.pool_memory.specs.IsPool.{is_pool};
ghost use Rattle.pool_memory.specs.Writing.{lent_after};
ghost use Rattle.grid_shapes.specs.Outcomes.{outcome_number};
ghost use Rattle.pool_memory.specs.Calls.{told_number, trim_on};
ghost use Rattle.pool_trim.specs.LookAt.{looked_put};
ghost use Rattle.pool_trim.specs.Pass.{trimmed};
ghost use Rattle.pool_records.specs.RecordConstants.{texture_stride};

use crate::look_at::{Look, look_at};
use crate::nothing_aged::nothing_aged;
use crate::pass::{Pass, counts_after, pass_on};
use grid_shapes::Refusal;
use pool_access::{put_texture, texture_at};
use pool_forget_texture::move_down;
use pool_memory::{DoneAnswer, PacingBook, Pool};
use pool_records::{
    RETIRING_STRIDE, SPARE_STRIDE, TEXTURE_DUE_AT, TEXTURE_SPARES_AT, TEXTURE_STRIDE, TextureRecord,
};
use pool_rules::LIMIT;
use pool_take_doomed::push_spares;

// Writes record i behind those that stay, as it is after the look and with where its grids and stamps begin now. Nothing is written
// where the texture is dropped, nor where the record stands there already.
fn put_looked(textures: &mut [u64], i: usize, look: Look, pass: Pass)
    requires { (texture_stride * i + texture_stride ≤ length textures.old) × (texture_stride * pass.tracked + texture_stride ≤ length textures.old)
        × RecordedFits (texture_in textures.old i).history × (look.aged ≤ look.own)
        × (look.grid ≡ (texture_in textures.old i).grid) × (look.stamp ≡ (texture_in textures.old i).stamp) }
    ensures { textures.new ≡ looked_put textures.old i look pass }
{
    if look.staying == 0 {
        return;
    }
    let left = (look.own - look.aged) as u64;
    if (pass.tracked == i)
        & (look.grid == pass.grids)
        & (look.stamp == pass.stamps)
        & (textures[TEXTURE_STRIDE * i + TEXTURE_DUE_AT] == look.due)
        & (textures[TEXTURE_STRIDE * i + TEXTURE_SPARES_AT] == left)
    {
        return;
    }
    let t = TextureRecord {
        due: look.due,
        spares: left,
        grid: pass.grids as u64,
        stamp: pass.stamps as u64,
        ..texture_at(textures, i)
    };
    put_texture(textures, pass.tracked, t);
}

// Moves the history of a texture that stays down to those before it. Of one that is dropped nothing is moved.
fn move_history(newest: &mut [u64], stamps: &mut [u64], look: Look, pass: Pass)
    requires { (pass.grids ≤ look.grid) × (look.grid + look.grids ≤ length newest.old) × (pass.stamps ≤ look.stamp)
        × (look.stamp + look.stamps ≤ length stamps.old) }
    ensures { (newest.new ≡ moved newest.old pass.grids look.grid look.grids)
        × (stamps.new ≡ moved stamps.old pass.stamps look.stamp look.stamps) }
{
    move_down(newest, pass.grids, look.grid, look.grids);
    move_down(stamps, pass.stamps, look.stamp, look.stamps);
}

// Looks at the textures in ascending id. What stays moves down to what stays before it, so that no number is written before it is
// read. Returns the counts after it.
fn trim_textures(
    pool: Pool,
    book: PacingBook,
    textures: &mut [u64],
    retiring: &[u64],
    doomed: &mut [u64],
    spares: &mut [u64],
    newest: &mut [u64],
    stamps: &mut [u64],
    current: u64,
) -> Pool
    requires { is_pool (lent_by pool book textures.old retiring.now doomed.old spares.old newest.old stamps.old) ≡ true }
    ensures { at_exit result book textures.new retiring.now doomed.new spares.new newest.new stamps.new
        ≡ lent_after (trimmed (lent pool book textures.old retiring.now doomed.old spares.old
        newest.old stamps.old) current pool.tracked)
        (lent pool book textures.old retiring.now doomed.old spares.old
        newest.old stamps.old) }
{
    let places = retiring.len() / RETIRING_STRIDE;
    let tracked = pool.tracked;
    let ring = pool.first;
    let waiting = pool.doomed;
    let mut pass = Pass::default();
    for i in 0..tracked {
        let look = look_at(pool, textures, spares, i, pass.first, current);
        push_spares(
            doomed,
            places,
            ring,
            waiting + pass.count,
            spares,
            pass.first,
            look.aged,
            look.bytes,
        );
        move_down(
            spares,
            SPARE_STRIDE * pass.kept,
            SPARE_STRIDE * (pass.first + look.aged),
            SPARE_STRIDE * (look.own - look.aged),
        );
        move_history(newest, stamps, look, pass);
        put_looked(textures, i, look, pass);
        pass = pass_on(pass, look);
    }
    counts_after(pool, pass)
}

// Gives up what was idle too long. `current` is 01's now, the submission that is being built. Spares park in submission order and
// renames take the newest, so that each texture's oldest spares come first.
pub fn trim(
    pool: Pool,
    book: PacingBook,
    textures: &mut [u64],
    retiring: &[u64],
    doomed: &mut [u64],
    spares: &mut [u64],
    newest: &mut [u64],
    stamps: &mut [u64],
    current: u64,
) -> DoneAnswer
    requires { is_pool (lent_by pool book textures.old retiring.now doomed.old spares.old newest.old stamps.old) ≡ true }
    ensures { (
      told_number (outcome_number result.outcome),
      lent result.pool book textures.new retiring.now doomed.new spares.new
          newest.new stamps.new,
    )
        ≡ trim_on (lent pool book textures.old retiring.now doomed.old spares.old
        newest.old stamps.old) current }
{
    if current > LIMIT {
        return DoneAnswer {
            pool,
            outcome: Err(Refusal::BadSubmission),
        };
    }
    if nothing_aged(textures, spares, pool.tracked, current) {
        return DoneAnswer {
            pool,
            outcome: Ok(()),
        };
    }
    let counts = trim_textures(
        pool, book, textures, retiring, doomed, spares, newest, stamps, current,
    );
    DoneAnswer {
        pool: counts,
        outcome: Ok(()),
    }
}
