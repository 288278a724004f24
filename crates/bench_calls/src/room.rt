// Memory for 4,096 pages, for the grids of 4,096 textures, and for the program's own numbers.

// Returns places for the stamps of all pages.
pub fn stamp_places() -> [u64; 4194304] {
    [0; 4194304]
}

// Returns places for the newest stamps and the tilings of as many grids as the textures can have.
pub fn newest_places() -> [u64; 737280] {
    [0; 737280]
}

// Returns places for the program's own numbers (notes.rt).
pub fn note_places() -> [u64; 12288] {
    [0; 12288]
}
