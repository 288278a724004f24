// The calls that lib.rt hands on, a file each.
pub mod dirty_tile;
pub mod note_mip_regeneration;
pub mod note_write;
pub mod records_writes;
