// The numbers that have a name, each with its reason.

// What is lent, as the event program lends it (01).
pub const TEXTURES: usize = 8;

pub const VERSIONS: usize = 64;

pub const PAGES: usize = 6;

pub const ENTRIES: usize = 90;

// The bytes of standard input that are read, all at once.
pub const INPUT_BYTES: usize = 524288;

// The largest buffer that a question may ask for.
pub const PAGE_BYTES: usize = 65536;
