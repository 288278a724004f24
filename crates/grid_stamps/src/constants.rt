// The numbers that have a name, each with its reason.

// The stamps of a page, in which they are lent: as many as the largest grid has, the most tiles along an axis, squared.
pub const PAGE_STAMPS: usize = 1024;
