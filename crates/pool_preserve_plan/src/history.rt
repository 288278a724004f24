// The write history of a plan's texture.
ghost use Rattle.std.specs.Prelude.{◌≡◌, true, ◌*◌, ◌≤◌, length};
ghost use Rattle.base_blocks.specs.Lists.{ascending};
ghost use Rattle.pool_records.specs.Texture.{textures_in};
ghost use Rattle.pool_records.specs.Find.{id_of};
ghost use Rattle.pool_records.specs.RecordConstants.{texture_stride};
ghost use Rattle.pool_preserve_plan.specs.PlanRefusal.{history_found, since_held, since_of, is_other, is_spent};

use crate::since::After;
use grid_shapes::{VersionShape, same_shape};
use pool_access::{has_id, texture_at};
use pool_records::find_texture;
use pool_rules::{Held, LIMIT};

// A texture tracked with another shape; one with no history, tracked or not; or where the grids and the stamps of a history begin, and
// its write count.
#[derive(Clone, Copy)]
pub enum Found {
    OtherShape,
    NothingRecorded,
    History {
        grid: usize,
        stamp: usize,
        writes: u64,
    },
}

// Looks up the history of a texture that the plan takes to have this shape.
pub fn find_history(textures: &[u64], tracked: usize, id: u64, shape: VersionShape) -> Found
    requires { (texture_stride * tracked ≤ length textures.now) × (ascending id_of (textures_in tracked textures.now) ≡ true) }
    ensures { result ≡ history_found textures.now tracked id shape }
{
    let i = find_texture(textures, tracked, id);
    if !has_id(textures, tracked, i, id) {
        return Found::NothingRecorded;
    }
    let t = texture_at(textures, i);
    if !same_shape(t.shape, shape) {
        return Found::OtherShape;
    }
    let Some(writes) = t.history else {
        return Found::NothingRecorded;
    };
    Found::History {
        grid: t.grid as usize,
        stamp: t.stamp as usize,
        writes,
    }
}

// Returns what bounds the copies by the history that begins there, where the held writes are known: a spare of unknown contents gets
// every level whole.
fn since_held(grid: usize, stamp: usize, held: Held) -> Option<After>
    ensures { result ≡ since_held grid stamp held }
{
    match held {
        Held::Known(held) => Some(After { grid, stamp, held }),
        Held::Unknown => None,
    }
}

// Returns what bounds the copies, or none where the history or the held writes are not known.
pub fn since_of(found: Found, held: Held) -> Option<After>
    ensures { result ≡ since_of found held }
{
    match found {
        Found::OtherShape | Found::NothingRecorded => None,
        Found::History { grid, stamp, .. } => since_held(grid, stamp, held),
    }
}

// Tells whether the texture is tracked with another shape.
pub fn is_other(found: Found) -> bool
    ensures { result ≡ is_other found }
{
    matches!(found, Found::OtherShape)
}

// Tells whether the history's write count is spent.
pub fn is_spent(found: Found) -> bool
    ensures { result ≡ is_spent found }
{
    matches!(found, Found::History { writes, .. } if LIMIT <= writes)
}
