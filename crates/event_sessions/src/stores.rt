// What a program lends for a run.

// The six stores of the pool, and the buffers that the answers with entries are put into: copies of plans, views handed back.
#[derive(Drop)]
pub struct Stores<'a> {
    pub textures: &'a mut [u64],
    pub retiring: &'a mut [u64],
    pub doomed: &'a mut [u64],
    pub spares: &'a mut [u64],
    pub newest: &'a mut [u64],
    pub stamps: &'a mut [u64],
    pub copies: &'a mut [u64],
    pub views: &'a mut [u64],
}
