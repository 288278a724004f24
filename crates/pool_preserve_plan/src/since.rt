// What a plan goes by.

// What bounds the copies of a history whose held writes are known: where it begins in `newest` and in the stamps, and the writes that the
// new version holds.
#[derive(Clone, Copy)]
pub struct After {
    pub grid: usize,
    pub stamp: usize,
    pub held: u64,
}

// The subresource that the upload writes, and whether it covers it whole.
#[derive(Clone, Copy)]
pub struct Upload {
    pub slice: u64,
    pub level: u64,
    pub cover: bool,
}
