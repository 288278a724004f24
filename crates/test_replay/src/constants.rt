// The numbers that have a name, each with its reason.

// What is lent at most; a list is lent as much of it as its first line asks for. The textures, versions and pages are those of the large
// event program.
pub const MOST_TEXTURES: usize = 64;

pub const MOST_VERSIONS: usize = 2000;

pub const MOST_PAGES: usize = 256;

// As many entries as there may be versions (01), so that an answer of any length can be asked for.
pub const MOST_ENTRIES: usize = 4096;

// The sizes that a list's parts take in turn, which go from one byte to past what is kept of a line.
pub const PART_SIZES: usize = 211;
