// The textures' records: twenty-two numbers each, packed in ascending id from the front of their slice.
ghost use Rattle.std.specs.Prelude.{◌≡◌, ◌+◌, ◌*◌, ◌-◌, ◌≤◌, ◌<◌, length};
ghost use Rattle.std.proofs.lemmas.List.Edits.{sets};
ghost use Rattle.base_blocks.specs.Blocks.{moved};
ghost use Rattle.pool_records.specs.Find.{has_id};
ghost use Rattle.pool_records.specs.Recorded.{RecordedFits};
ghost use Rattle.pool_records.specs.Texture.{write_texture, texture_in};
ghost use Rattle.pool_records.specs.RecordConstants.{texture_stride};

use crate::records::{insert_at, put_at, read_at};
use base_tables::remove_records;
use pool_records::{TEXTURE_STRIDE, TextureRecord};

// Returns record i.
pub fn texture_at(s: &[u64], i: usize) -> TextureRecord
    requires { texture_stride * i + texture_stride ≤ length s.now }
    ensures { result ≡ texture_in s.now i }
{
    read_at(s, i)
}

// Tells whether record i, where a search among n ended, is there and has the id.
pub fn has_id(s: &[u64], n: usize, i: usize, id: u64) -> bool
    requires { texture_stride * n ≤ length s.now }
    ensures { result ≡ has_id s.now n i id }
{
    if n <= i {
        return false;
    }
    s[TEXTURE_STRIDE * i] == id
}

// Writes record i over.
pub fn put_texture(s: &mut [u64], i: usize, t: TextureRecord)
    requires { (texture_stride * i + texture_stride ≤ length s.old) × RecordedFits t.history }
    ensures { s.new ≡ sets s.old (texture_stride * i) (write_texture t) }
{
    put_at(s, i, t);
}

// Puts a record in before record i of the n that there are. Those from i on move up.
pub fn insert_texture(s: &mut [u64], n: usize, i: usize, t: TextureRecord)
    requires { (texture_stride * n + texture_stride ≤ length s.old) × (i ≤ n) × RecordedFits t.history }
    ensures { s.new
        ≡ sets (moved s.old (texture_stride * i + texture_stride) (texture_stride * i) (texture_stride * (n - i))) (texture_stride * i)
        (write_texture t) }
{
    insert_at(s, n, i, t);
}

// Takes record i out of the n that there are. The later ones move down.
pub fn remove_texture(s: &mut [u64], n: usize, i: usize)
    requires { (texture_stride * n ≤ length s.old) × (i < n) }
    ensures { s.new ≡ moved s.old (texture_stride * i) (texture_stride * i + texture_stride * 1) (texture_stride * (n - (i + 1))) }
{
    remove_records(s, TEXTURE_STRIDE, n, i, 1);
}
