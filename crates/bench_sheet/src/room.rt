// Memory that the calls' benchmark does not lend: for no history, and for a sheet.

// Returns no places, since no texture here records its writes.
pub fn no_places() -> [u64; 0] {
    [0; 0]
}

// Returns a page for the sheet of 4,096 textures.
pub fn page_bytes() -> [u8; 299154] {
    [b'#'; 299154]
}
