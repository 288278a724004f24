// What is printed of a texture.
ghost use Rattle.std.specs.Prelude.{◌≡◌, ◌≤◌, length};
ghost use Rattle.pool_records.specs.RecordConstants.{texture_stride};
ghost use Rattle.pool_records.specs.Texture.{read_texture};
ghost use Rattle.pool_sheet.specs.Records.{record_fields, FieldsFit};

use pool_records::{
    TEXTURE_BYTES_AT, TEXTURE_KIND_AT, TEXTURE_LEVELS_AT, TEXTURE_RENAME_AT, TEXTURE_SPARES_AT,
};

// A texture's columns, in their order: `parked` is the bytes of all its spares, `last` the submission of its last rename.
#[derive(Clone, Copy)]
pub struct SheetFields {
    pub id: u64,
    pub kind: u64,
    pub levels: u64,
    pub spares: u64,
    pub parked: u64,
    pub last: u64,
}

// Returns what is printed of the texture whose record stands in the first numbers of `texture`.
pub fn read_fields(texture: &[u64]) -> SheetFields
    requires { (texture_stride ≤ length texture.now) × FieldsFit (record_fields (read_texture texture.now)) }
    ensures { result ≡ record_fields (read_texture texture.now) }
{
    let spares = texture[TEXTURE_SPARES_AT];
    SheetFields {
        id: texture[0],
        kind: texture[TEXTURE_KIND_AT],
        levels: texture[TEXTURE_LEVELS_AT],
        spares,
        parked: texture[TEXTURE_BYTES_AT] * spares,
        last: texture[TEXTURE_RENAME_AT],
    }
}
