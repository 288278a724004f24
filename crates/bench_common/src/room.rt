// Memory for 4,096 places of each kind.
use pool_records::{DOOMED_STRIDE, RETIRING_STRIDE, SPARE_STRIDE, TEXTURE_STRIDE};

const PLACES: usize = 4096;

// Returns places for textures.
pub fn texture_places() -> [u64; PLACES * TEXTURE_STRIDE] {
    [0; PLACES * TEXTURE_STRIDE]
}

// Returns places for retiring versions.
pub fn retiring_places() -> [u64; PLACES * RETIRING_STRIDE] {
    [0; PLACES * RETIRING_STRIDE]
}

// Returns places for versions to be destroyed.
pub fn doomed_places() -> [u64; PLACES * DOOMED_STRIDE] {
    [0; PLACES * DOOMED_STRIDE]
}

// Returns places for spares.
pub fn spare_places() -> [u64; PLACES * SPARE_STRIDE] {
    [0; PLACES * SPARE_STRIDE]
}
