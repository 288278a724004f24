// The call that lib.rt hands on.
pub mod print_sheet;
