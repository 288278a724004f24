// The numbers that have a name, each with its reason.

// The numbers of a texture's record.
pub const TEXTURE_STRIDE: usize = 22;

// The numbers of a retiring version's record.
pub const RETIRING_STRIDE: usize = 7;

// The numbers of a spare's record.
pub const SPARE_STRIDE: usize = 3;

// The numbers of a doomed version's record.
pub const DOOMED_STRIDE: usize = 2;

// Where a texture's record has its levels.
pub const TEXTURE_LEVELS_AT: usize = 5;

// Where a texture's record has its kind.
pub const TEXTURE_KIND_AT: usize = 6;

// Where a texture's record has its history: 0 for none, or the writes and one.
pub const TEXTURE_HISTORY_AT: usize = 14;

// Where a texture's record has the submission of its last rename.
pub const TEXTURE_RENAME_AT: usize = 16;

// Where a texture's record has the submission that it is looked at again from.
pub const TEXTURE_DUE_AT: usize = 17;

// Where a texture's record has how many spares it has.
pub const TEXTURE_SPARES_AT: usize = 18;

// Where a texture's record has the bytes of one version.
pub const TEXTURE_BYTES_AT: usize = 19;

// Where a texture's record has where its history begins in `newest`.
pub const TEXTURE_GRID_AT: usize = 20;

// Where a texture's record has the first of its history's stamps.
pub const TEXTURE_STAMP_AT: usize = 21;

// Where a spare's record has the writes that it holds: 0 for unknown, or the count and one.
pub const SPARE_HELD_AT: usize = 1;

// Where a spare's record has the submission that it was parked in.
pub const SPARE_PARKED_AT: usize = 2;

// Where a doomed version's record has its bytes.
pub const DOOMED_BYTES_AT: usize = 1;

// Where in its history a grid begins is below this: 2^17, and a history has at most 92,160 stamps.
pub const START_SPAN: u64 = 1 << 17;

// A tile's edge is below this: 2^15, and no edge passes 16,384.
pub const EDGE_SPAN: u64 = 1 << 15;

// What an edge down counts for in a grid's tiling: 2^32, above the start and the edge across.
pub const DOWN_UNIT: u64 = 1 << 32;
