// The numbers that have a name, each with its reason.

// 2^44, more than the bytes of any version: 6 slices, 15 levels, 16,384 texels a side, 16 bytes a block, with room. No sum of
// 4,096 such numbers wraps.
pub const MOST_SHAPE_BYTES: u64 = 1 << 44;
