// The calls that lib.rt hands on, a file each.
pub mod dirty_tile;
pub mod drain_versions;
pub mod forget_texture;
pub mod note_allocated;
pub mod note_mip_regeneration;
pub mod note_write;
pub mod park;
pub mod parked_bytes;
pub mod pending_destroy_bytes;
pub mod pop_retired;
pub mod preserve_plan;
pub mod print_sheet;
pub mod records_writes;
pub mod retire;
pub mod take_doomed;
pub mod take_spare;
pub mod trim;
