// The calls that lib.rt hands on, a file each.
pub mod pop_retired;
pub mod retire;
