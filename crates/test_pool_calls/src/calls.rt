// The calls of the checked face, a file each.
pub mod drain_versions;
pub mod forget_texture;
pub mod note_allocated;
pub mod note_mip_regeneration;
pub mod note_write;
pub mod park;
pub mod pop_retired;
pub mod preserve_plan;
pub mod print_sheet;
pub mod retire;
pub mod take_doomed;
pub mod take_spare;
pub mod trim;
