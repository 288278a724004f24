// What take_spare looks up before anything changes.
ghost use Rattle.pool_take_spare.specs.TakeRefusal.{Readable};
ghost use Rattle.pool_take_spare.specs.LookUp.{Looked};

use crate::check_take::check_take;
use grid_shapes::{Refusal, VersionShape, same_shape};
use pool_access::{has_id, texture_at};
use pool_memory::Pool;
use pool_records::find_texture;

// How the texture is tracked before the call: not at all, or with the call's shape or another one.
#[derive(Clone, Copy)]
pub enum Before {
    Untracked,
    SameShape,
    OtherShape,
}

// The id's place among the textures, how it is tracked, and the stamps of the history that begins where one does.
#[derive(Clone, Copy)]
pub struct Look {
    pub place: usize,
    pub before: Before,
    pub stamps: usize,
}

// Looks for the texture, and for what refuses the call: a refused call must have changed nothing. `lent` stamps are
// lent.
pub fn look_up(
    pool: Pool,
    textures: &[u64],
    lent: usize,
    id: u64,
    shape: VersionShape,
    records: bool,
    seq: u64,
) -> Result<Look, Refusal>
    requires { Readable pool textures.now lent }
    ensures { Looked pool textures.now lent id shape records seq result }
{
    let place = find_texture(textures, pool.tracked, id);
    let stamps = check_take(pool, textures, lent, place, id, shape, records, seq)?;
    if !has_id(textures, pool.tracked, place, id) {
        return Ok(Look {
            place,
            before: Before::Untracked,
            stamps,
        });
    }
    let t = texture_at(textures, place);
    if same_shape(t.shape, shape) {
        return Ok(Look {
            place,
            before: Before::SameShape,
            stamps,
        });
    }
    Ok(Look {
        place,
        before: Before::OtherShape,
        stamps,
    })
}
