// The calls that lib.rt hands on, a file each.
pub mod open;
pub mod sizes_fit;
