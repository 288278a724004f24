// What a line of the event program is.
use grid_rects::TexelRect;
use grid_shapes::VersionShape;
use pool_rules::Held;

// The words that a line can start with.
#[derive(Clone, Copy)]
pub enum Word {
    Open,
    Take,
    Plan,
    Retire,
    Write,
    Regen,
    Pop,
    Park,
    Note,
    Doomed,
    Drain,
    Trim,
    Forget,
    Other,
}

// The call that a line asks for, with its fields. The outcome of an unread line is "?".
#[derive(Clone, Copy)]
pub enum Event {
    // The working set.
    Open(u64),
    Take {
        id: u64,
        shape: VersionShape,
        records: bool,
        seq: u64,
    },
    Plan {
        id: u64,
        held: Held,
        slice: u64,
        level: u64,
        cover: bool,
    },
    Retire {
        id: u64,
        view: u64,
        seq: u64,
    },
    Write {
        id: u64,
        slice: u64,
        level: u64,
        rect: TexelRect,
    },
    // The id.
    Regen(u64),
    // The last settled submission.
    Pop(u64),
    Park {
        failed: u64,
        now: u64,
    },
    // The bytes allocated.
    Note(u64),
    Doomed,
    Drain,
    // The submission now.
    Trim(u64),
    // The id.
    Forget(u64),
    Unread,
}
