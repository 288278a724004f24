// The numbers that have a name, each with its reason.

// 2^48: submissions, write counts and tracking counts are at most this. A counter that is there refuses with 12, so that none
// wraps.
pub const LIMIT: u64 = 1 << 48;

// The most textures, versions and pages that the lent slices may have places for.
pub const MOST_PLACES: usize = 4096;

// The most grids of a texture: fifteen levels on each of a cube's six slices.
pub const MOST_GRIDS: usize = 90;

// The numbers that `newest` has for each grid: the newest of its stamps, and its tiling.
pub const GRID_STRIDE: usize = 2;

// Submissions that a spare may wait for a rename, counted from its parking. The Rust: this bound sizes the pool to the demand,
// for a texture that is still renamed takes its newest spares first and leaves the oldest to age; eight gives a texture that
// stopped being renamed its storage back within about 130 ms at 60 frames a second. Counted from retiring instead, the same
// bound destroyed about 87 versions a frame.
pub const SPARE_MAX_IDLE_SUBMITS: u64 = 8;

// Submissions that a texture's state is kept without a rename and without spares. The Rust: a state is far smaller than a
// spare, so that it is kept longer, about two seconds at 60 frames a second, which spares a texture renamed in bursts the rebuild;
// dropping it costs the next rename a whole copy into a fresh allocation, which it would take anyway with no spare left.
pub const STATE_MAX_IDLE_SUBMITS: u64 = 120;

// The fewest versions handed back by a take, where that many wait. The Rust: 1,357 handles destroyed at once took 6.1 ms, about
// 4.5 us each, so 64 versions of two views cost about 0.6 ms.
pub const MIN_DESTROYS_PER_DRAIN: u64 = 64;

// The takes over which arrivals in the destroy queue are averaged, and the queue's divisor. The Rust: a burst raises the
// average for that many takes and is handed out over about five of them: 678 versions go as 170, 149, 130, 114, 100 and 15.
pub const DESTROY_SPREAD_DRAINS: usize = 8;
