// The calls that lib.rt hands on, a file each.
pub mod byte_count;
pub mod reason;
pub mod run_all;
pub mod write_out;
