// What the calls answer, as numbers.
use grid_shapes::Refusal;
use pool_memory::{PoppedVersion, TakenVersion};
use pool_rules::Held;

// Returns the number of an outcome: 0, or that of the refusal.
pub fn outcome_number(outcome: Result<(), Refusal>) -> u64 {
    match outcome {
        Ok(()) => 0,
        Err(refusal) => refusal.number(),
    }
}

// Returns the writes that a spare holds as a number: one more than a known count, or 0.
pub fn held_number(taken: Result<Option<TakenVersion>, Refusal>) -> u64 {
    match taken {
        Ok(Some(spare)) => known_number(spare.held),
        _ => 0,
    }
}

// Returns one more than a known count, or 0.
fn known_number(held: Held) -> u64 {
    match held {
        Held::Known(n) => n.wrapping_add(1),
        Held::Unknown => 0,
    }
}

// Returns the held writes that a number stands for.
pub fn held_from(number: u64) -> Held {
    if number == 0 {
        return Held::Unknown;
    }
    Held::Known(number - 1)
}

// Returns the number of copies of a plan, or of views that were handed out.
pub fn entries_number(answered: Result<usize, Refusal>) -> u64 {
    answered.unwrap_or(0) as u64
}

// Returns the view of the version popped, or 0.
pub fn popped_number(popped: Result<Option<PoppedVersion>, Refusal>) -> u64 {
    match popped {
        Ok(Some(version)) => version.view,
        _ => 0,
    }
}
