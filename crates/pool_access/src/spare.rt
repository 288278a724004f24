// The spares' records: three numbers each, packed texture by texture from the front of their slice, so that a texture's begin after
// those of the textures before it.
ghost use Rattle.std.specs.Prelude.{◌≡◌, ◌⊎◌, ◌+◌, ◌*◌, ◌-◌, ◌≤◌, ◌<◌, length};
ghost use Rattle.std.proofs.lemmas.List.Edits.{sets};
ghost use Rattle.base_blocks.specs.Blocks.{moved};
ghost use Rattle.base_blocks.specs.Lists.{total};
ghost use Rattle.base_tables.specs.Records.{record_at};
ghost use Rattle.pool_records.specs.Held.{HeldFits};
ghost use Rattle.pool_records.specs.Spare.{read_spare, write_spare};
ghost use Rattle.pool_records.specs.Texture.{textures_in};
ghost use Rattle.pool_records.specs.RecordConstants.{spare_stride, texture_stride};
ghost use Rattle.pool_rules.specs.RuleConstants.{most_places};

use crate::records::{insert_at, read_at};
use pool_records::{SpareRecord, TEXTURE_SPARES_AT, TEXTURE_STRIDE};
use std::ops::Range;

// Returns record k.
pub fn spare_at(s: &[u64], k: usize) -> SpareRecord
    requires { spare_stride * k + spare_stride ≤ length s.now }
    ensures { result ≡ record_at spare_stride read_spare s.now k }
{
    read_at(s, k)
}

// Puts a record in before record k of the `n` that there are. Those from k on move up.
pub fn insert_spare(s: &mut [u64], n: usize, k: usize, x: SpareRecord)
    requires { (spare_stride * n + spare_stride ≤ length s.old) × (k ≤ n) × HeldFits x.held }
    ensures { s.new
        ≡ sets (moved s.old (spare_stride * k + spare_stride) (spare_stride * k) (spare_stride * (n - k))) (spare_stride * k) (write_spare x) }
{
    insert_at(s, n, k, x);
}

// Counts the spares of the first i textures, which is where those of texture i begin. It reads one number of each record.
pub fn spares_before(textures: &[u64], i: usize) -> usize
    requires { (texture_stride * i ≤ length textures.now) × (total (λ t. t.spares) (textures_in i textures.now) ≤ most_places) }
    ensures { result ≡ total (λ t. t.spares) (textures_in i textures.now) }
{
    spares_between(textures, 0, i)
}

// Counts the spares of the textures from `from` on, up to `to`.
fn spares_between(textures: &[u64], from: usize, to: usize) -> usize
    requires { (texture_stride * to ≤ length textures.now) × (from ≤ to) × (total (λ t. t.spares) (textures_in to textures.now) ≤ most_places) }
    ensures { total (λ t. t.spares) (textures_in from textures.now) + result ≡ total (λ t. t.spares) (textures_in to textures.now) }
{
    let mut sum = 0;
    for j in from..to {
        sum += textures[TEXTURE_STRIDE * j + TEXTURE_SPARES_AT] as usize;
    }
    sum
}

// Returns those of n places that are before i, or those from i on: whichever are fewer.
fn fewer(n: usize, i: usize) -> Range<usize>
    requires { i ≤ n }
    ensures { ((result.start ≡ 0) × (result.end ≡ i)) ⊎ ((result.start ≡ i) × (result.end ≡ n) × (0 < i)) }
{
    if i <= n - i { 0..i } else { i..n }
}

// Returns where the spares of texture i begin, of n textures that have `kept` in all. It counts from the nearer end, so that at
// most half of the records are read.
pub fn first_spare(textures: &[u64], n: usize, kept: usize, i: usize) -> usize
    requires { (texture_stride * n ≤ length textures.now) × (i ≤ n) × (total (λ t. t.spares) (textures_in n textures.now) ≡ kept)
        × (kept ≤ most_places) }
    ensures { result ≡ total (λ t. t.spares) (textures_in i textures.now) }
{
    let near = fewer(n, i);
    let sum = spares_between(textures, near.start, near.end);
    if near.start == 0 {
        return sum;
    }
    kept - sum
}
