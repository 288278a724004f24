// The lines of a sheet.
ghost use Rattle.std.specs.Prelude.{◌≡◌, ◌+◌, ◌*◌, ◌^◌, ◌≤◌, ◌<◌, length};
ghost use mathlib.Core.List.{flat_map};
ghost use Rattle.std.proofs.lemmas.List.Edits.{sets};
ghost use Rattle.base_digits.specs.Digits.{digits_of};
ghost use Rattle.base_digits.specs.Put.{Put};
ghost use Rattle.pool_records.specs.RecordConstants.{texture_stride};
ghost use Rattle.pool_records.specs.Texture.{textures_in};
ghost use Rattle.pool_sheet.specs.Records.{line_bytes, record_line, FieldsFit, RecordsFit, column};
ghost use Rattle.pool_sheet.specs.Sheet.{head_texts, texture_texts, total_texts, line};

use crate::fields::{SheetFields, read_fields};
use base_digits::{put_blanks, put_right, put_text};
use pool_records::TEXTURE_STRIDE;

// The bytes of a line: 72 characters and a line feed.
pub const LINE_BYTES: usize = 73;

// Puts the head line.
pub fn put_head(out: &mut [u8])
    requires { line_bytes ≤ length out.old }
    ensures { out.new ≡ sets out.old 0 (line head_texts) }
{
    put_text(
        out,
        0,
        b"                  id k lv   sp              parked            last      \n",
    );
}

// Puts a number right-aligned in its column, and the blank behind it. Returns where the next column begins.
fn put_column(out: &mut [u8], at: usize, width: usize, n: u64) -> usize
    requires { (length (digits_of n) ≤ width) × (at + width + 20 ≤ length out.old) }
    ensures { (result ≡ at + width + 1) × Put out.old at (column width (digits_of n)) result out.new }
{
    put_right(out, at, width, n);
    out[at + width] = b' ';
    at + width + 1
}

// Puts the line of a texture. There has to be room for twenty digits after its last column, as there is, since a line follows.
fn put_fields(out: &mut [u8], at: usize, fields: SheetFields)
    requires { FieldsFit fields × (at + 86 ≤ length out.old) }
    ensures { out.new ≡ sets out.old at (line (texture_texts fields)) }
{
    let kind_at = put_column(out, at, 20, fields.id);
    let levels_at = put_column(out, kind_at, 1, fields.kind);
    let spares_at = put_column(out, levels_at, 2, fields.levels);
    let parked_at = put_column(out, spares_at, 4, fields.spares);
    let last_at = put_column(out, parked_at, 19, fields.parked);
    let end = put_column(out, last_at, 15, fields.last);
    put_text(out, end, b"     \n");
}

// Puts a line for each of the first n textures.
pub fn put_textures(out: &mut [u8], at: usize, textures: &[u64], n: usize)
    requires { (texture_stride * n ≤ length textures.now) × RecordsFit textures.now n × (at + line_bytes * n + line_bytes ≤ length out.old) }
    ensures { out.new ≡ sets out.old at (flat_map record_line (textures_in n textures.now)) }
{
    for i in 0..n {
        let from = TEXTURE_STRIDE * i;
        let fields = read_fields(&textures[from..]);
        put_fields(out, at + LINE_BYTES * i, fields);
    }
}

// Puts the line of totals.
pub fn put_totals(out: &mut [u8], at: usize, spares: u64, parked: u64)
    requires { (spares < 10 ^ 4) × (parked < 10 ^ 19) × (at + line_bytes ≤ length out.old) }
    ensures { out.new ≡ sets out.old at (line (total_texts spares parked)) }
{
    put_blanks(out, at, 26);
    let parked_at = put_column(out, at + 26, 4, spares);
    let end = put_column(out, parked_at, 19, parked);
    put_text(out, end, b"                     \n");
}
