// The pool's counts.
ghost use Rattle.std.specs.Prelude.{◌≡◌};

// `tracked` textures, `kept` spares, `grids` numbers of `newest`, two for each grid, and `stamps` stamps are in use, packed at the front of
// their slices. The retiring ring begins at place `head`: its first `popped` versions, one or none, are 01's hand, and `queued` versions
// follow. The destroy ring begins at place `first` and has `doomed` versions, of which `since` arrived after the last take. `parked` and `dooming` are the bytes of
// the spares and of the destroy queue; `cap` and `line` are the budget's. All are numbers: a bool leaves padding that slows copies.
#[derive(Clone, Copy)]
pub struct Pool {
    pub tracked: usize,
    pub kept: usize,
    pub grids: usize,
    pub stamps: usize,
    pub head: usize,
    pub popped: usize,
    pub queued: usize,
    pub first: usize,
    pub doomed: usize,
    pub since: u64,
    pub trackings: u64,
    pub parked: u64,
    pub dooming: u64,
    pub cap: u64,
    pub line: u64,
}

// Returns the same counts, for an exit of a call that changes none.
pub fn same_counts(pool: Pool) -> Pool
    ensures { result ≡ pool }
{
    pool
}
