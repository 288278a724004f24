// The calls that lib.rt hands on, a file each.
pub mod drain_versions;
pub mod note_allocated;
pub mod take_doomed;
