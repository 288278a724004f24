// The calls that lib.rt hands on, a file each.
pub mod forget_texture;
