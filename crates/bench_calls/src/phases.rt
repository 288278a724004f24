// The phases of a round, and the calls that a phase makes.

#[derive(Clone, Copy)]
pub enum Call {
    TakeSpare,
    PreservePlan,
    Retire,
    NoteWrite,
    PopRetired,
    Park,
    NoteAllocated,
    TakeDoomed,
    Trim,
    NoteMipRegeneration,
    DrainVersions,
    ForgetTexture,
}

#[derive(Clone, Copy)]
pub enum Phase {
    // One call, for every texture or over and over.
    Alone(Call),
    // take_spare, preserve_plan, retire and note_write in a row for each texture.
    InARow,
    // pop_retired and park in turn.
    Settling,
}

// How the phases follow one another in a round.
#[derive(Clone, Copy, PartialEq, Eq)]
pub enum Workload {
    ByPhase,
    ByTexture,
    Lifetimes,
    // As by texture, without the calls that are for no texture.
    Renames,
}

// The ids: small ones in the same order each round, the same shuffled before each round, or random ones of 64 bits, shuffled.
#[derive(Clone, Copy, PartialEq, Eq)]
pub enum Order {
    Same,
    Shuffled,
    Random,
}

// What is run.
#[derive(Clone, Copy)]
pub struct Task {
    pub workload: Workload,
    pub order: Order,
    pub textures: usize,
    pub levels: u64,
    pub rounds: u64,
}

// Returns the workload that an argument names.
pub fn workload_of(argument: u64) -> Workload {
    match argument {
        0 => Workload::ByPhase,
        1 => Workload::ByTexture,
        2 => Workload::Lifetimes,
        _ => Workload::Renames,
    }
}

// Returns the order that an argument names.
pub fn order_of(argument: u64) -> Order {
    match argument {
        0 => Order::Same,
        2 => Order::Random,
        _ => Order::Shuffled,
    }
}

// Returns the number that a phase is printed with. A call and the phase of that call alone have one number.
pub fn number_of(phase: Phase) -> usize {
    match phase {
        Phase::Alone(call) => call as usize,
        Phase::InARow => 12,
        Phase::Settling => 13,
    }
}

// Returns a phase of the workload by phase.
fn phase_by_phase(step: u64) -> Option<Phase> {
    match step {
        0 => Some(Phase::Alone(Call::TakeSpare)),
        1 => Some(Phase::Alone(Call::PreservePlan)),
        2 => Some(Phase::Alone(Call::Retire)),
        3 => Some(Phase::Alone(Call::NoteWrite)),
        4 => Some(Phase::Settling),
        5 => Some(Phase::Alone(Call::NoteAllocated)),
        6 => Some(Phase::Alone(Call::TakeDoomed)),
        _ => Some(Phase::Alone(Call::Trim)),
    }
}

// Returns a phase of the workload by texture.
fn phase_by_texture(step: u64) -> Option<Phase> {
    match step {
        0 => Some(Phase::InARow),
        1 => Some(Phase::Settling),
        2 => Some(Phase::Alone(Call::NoteAllocated)),
        3 => Some(Phase::Alone(Call::TakeDoomed)),
        4 => Some(Phase::Alone(Call::Trim)),
        _ => None,
    }
}

// Returns a phase of the workload of renames alone.
fn rename_phase(step: u64) -> Option<Phase> {
    match step {
        0 => Some(Phase::InARow),
        1 => Some(Phase::Settling),
        _ => None,
    }
}

// Returns a phase of the workload by lifetimes.
fn lifetime_phase(step: u64) -> Option<Phase> {
    match step {
        0 => Some(Phase::Alone(Call::TakeSpare)),
        1 => Some(Phase::Alone(Call::Retire)),
        2 => Some(Phase::Alone(Call::NoteMipRegeneration)),
        3 => Some(Phase::Settling),
        4 => Some(Phase::Alone(Call::DrainVersions)),
        5 => Some(Phase::Alone(Call::ForgetTexture)),
        _ => None,
    }
}

// Returns the phase that a workload has as its step in a round, if there is one.
pub fn phase_at(workload: Workload, step: u64) -> Option<Phase> {
    match workload {
        Workload::ByPhase => phase_by_phase(step),
        Workload::ByTexture => phase_by_texture(step),
        Workload::Lifetimes => lifetime_phase(step),
        Workload::Renames => rename_phase(step),
    }
}

// Returns the number of steps of all rounds, eight of each.
pub fn steps_of(rounds: u64) -> u64 {
    8 * (rounds % 1000000000)
}

// Returns the round of step k, from 1 on.
pub fn round_of(k: u64) -> u64 {
    k / 8 + 1
}

// Returns how many calls a phase makes on n textures. A lifetime is 16 rounds: in the last of them all textures are forgotten.
pub fn calls_of(phase: Phase, n: usize, seq: u64) -> usize {
    let textures = n % 65536;
    match phase {
        Phase::Alone(Call::NoteAllocated | Call::TakeDoomed | Call::Trim) => 8,
        Phase::Alone(Call::DrainVersions) => 1,
        Phase::Alone(Call::ForgetTexture) => { if seq % 16 == 0 { textures } else { 0 } }
        Phase::Alone(_) => textures,
        Phase::InARow => 4 * textures,
        Phase::Settling => 2 * textures,
    }
}

// Returns the call that a phase makes as its j-th.
pub fn call_at(phase: Phase, j: usize) -> Call {
    match phase {
        Phase::Alone(call) => call,
        Phase::InARow => match j % 4 {
            0 => Call::TakeSpare,
            1 => Call::PreservePlan,
            2 => Call::Retire,
            _ => Call::NoteWrite,
        },
        Phase::Settling => {
            if j % 2 == 0 {
                Call::PopRetired
            } else {
                Call::Park
            }
        }
    }
}

// Returns the texture that the j-th call of a phase is for.
pub fn texture_at(phase: Phase, j: usize) -> usize {
    match phase {
        Phase::InARow => j / 4,
        _ => j,
    }
}

// Returns how many ids change places before a phase: all before the first of a round, unless the order stays.
pub fn shuffled_in(order: Order, n: usize, step: u64) -> usize {
    if (order == Order::Same) | (step != 0) {
        return 0;
    }
    n
}

// Returns whether the time counts. The first rounds do not, nor the first lifetime; of a lifetime's takes only those of textures that are not tracked.
fn is_counted(workload: Workload, phase: Phase, seq: u64) -> bool {
    if workload != Workload::Lifetimes {
        return 8 <= seq;
    }
    if seq < 17 {
        return false;
    }
    match phase {
        Phase::Alone(Call::TakeSpare) => seq % 16 == 1,
        Phase::Alone(Call::ForgetTexture) => seq % 16 == 0,
        _ => true,
    }
}

// Returns the time where it counts, else 0.
pub fn counted(workload: Workload, phase: Phase, seq: u64, time: u64) -> u64 {
    if is_counted(workload, phase, seq) {
        time
    } else {
        0
    }
}
