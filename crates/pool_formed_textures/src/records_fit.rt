// The textures' records, each by itself.
ghost use Rattle.std.specs.Prelude.{◌≡◌, true, ◌*◌, ◌≤◌, length};
ghost use Rattle.base_blocks.specs.Lists.{all, ascending};
ghost use Rattle.grid_shapes.specs.Shapes.{is_shape, bytes_of};
ghost use Rattle.pool_records.specs.Texture.{read_texture, record_bytes, textures_in};
ghost use Rattle.pool_records.specs.Find.{id_of};
ghost use Rattle.pool_formed_textures.specs.Textures.{writes_fit, is_record};
ghost use Rattle.pool_records.specs.RecordConstants.{texture_stride};
ghost use Rattle.pool_rules.specs.RuleConstants.{most_places};

use base_tables::record_at;
use grid_shapes::{is_shape, shape_bytes};
use pool_records::{Record, TEXTURE_BYTES_AT, TEXTURE_SPARES_AT, TEXTURE_STRIDE, TextureRecord};
use pool_rules::LIMIT;

// Tests that the ids of the first n records ascend.
pub fn ids_ascend(textures: &[u64], n: usize) -> bool
    requires { texture_stride * n ≤ length textures.now }
    ensures { result ≡ ascending id_of (textures_in n textures.now) }
{
    for i in 1..n {
        if textures[TEXTURE_STRIDE * i] <= textures[TEXTURE_STRIDE * i - TEXTURE_STRIDE] {
            return false;
        }
    }
    true
}

// Tests that a write count, if there is a history, is at most 2^48.
fn writes_fit(h: Option<u64>) -> bool
    ensures { result ≡ writes_fit h }
{
    match h {
        Some(n) => n <= LIMIT,
        None => true,
    }
}

// Tests that the record's shape passes refusal 2, its bytes are that shape's, and its other numbers are at most 2^48.
fn is_record(p: &[u64]) -> bool
    requires { texture_stride ≤ length p.now }
    ensures { result ≡ is_record (read_texture p.now) }
{
    let t = TextureRecord::read(p);
    let shape = t.shape;
    let history = t.history;
    if !is_shape(shape) {
        return false;
    }
    (t.epoch <= LIMIT)
        & (t.birth <= LIMIT)
        & (t.rename <= LIMIT)
        & (t.due <= LIMIT)
        & writes_fit(history)
        & (t.bytes == shape_bytes(shape))
}

// Tests every one of the first n records.
pub fn records_fit(textures: &[u64], n: usize) -> bool
    requires { texture_stride * n ≤ length textures.now }
    ensures { result ≡ all is_record (textures_in n textures.now) }
{
    for i in 0..n {
        if !is_record(record_at(textures, TEXTURE_STRIDE, i)) {
            return false;
        }
    }
    true
}

// Returns the bytes of a record's spares.
pub fn record_bytes(p: &[u64]) -> u64
    requires { (texture_stride ≤ length p.now) × (is_shape (read_texture p.now).shape ≡ true) × ((read_texture p.now).spares ≤ most_places)
        × ((read_texture p.now).bytes ≡ bytes_of (read_texture p.now).shape) }
    ensures { result ≡ record_bytes (read_texture p.now) }
{
    p[TEXTURE_BYTES_AT] * p[TEXTURE_SPARES_AT]
}
