// What a call answers, as the answer of a line: by the tests' own functions, so that an error in those of event_calls shows.
use crate::called::Called;
use event_answers::Answer;
use grid_shapes::Refusal;
use pool_memory::{PoppedVersion, TakenVersion};
use pool_note_allocated::NotedAnswer;
use pool_take_doomed::DrainAnswer;

// Returns the answer of a call that says its outcome alone.
pub fn answer_done(outcome: Result<(), Refusal>) -> Answer {
    match outcome {
        Ok(()) => Answer::Done,
        Err(refusal) => Answer::Refused(refusal.number()),
    }
}

// Returns the answer of take_spare.
pub fn answer_taken(taken: Result<Option<TakenVersion>, Refusal>) -> Answer {
    match taken {
        Ok(Some(spare)) => Answer::Spare(spare.view, spare.held),
        Ok(None) => Answer::NoSpare,
        Err(refusal) => Answer::Refused(refusal.number()),
    }
}

// Returns the answer of preserve_plan.
pub fn answer_planned(planned: Result<usize, Refusal>) -> Answer {
    match planned {
        Ok(count) => Answer::Copies(count),
        Err(refusal) => Answer::Refused(refusal.number()),
    }
}

// Returns the answer of pop_retired.
pub fn answer_popped(popped: Result<Option<PoppedVersion>, Refusal>) -> Answer {
    match popped {
        Ok(Some(version)) => Answer::Version(version.id, version.view),
        Ok(None) => Answer::NothingSettled,
        Err(refusal) => Answer::Refused(refusal.number()),
    }
}

// Returns the answer of take_doomed and of drain_versions.
fn answer_handed(handed: Result<usize, Refusal>) -> Answer {
    match handed {
        Ok(count) => Answer::Views(count),
        Err(refusal) => Answer::Refused(refusal.number()),
    }
}

// Returns what take_doomed and drain_versions leave.
pub fn say_handed(said: DrainAnswer) -> Called {
    let pool = said.pool;
    let book = said.book;
    let handed = said.handed;
    let answer = answer_handed(handed);
    Called { pool, book, answer }
}

// Returns what note_allocated leaves.
pub fn say_noted(said: NotedAnswer) -> Called {
    let pool = said.pool;
    let book = said.book;
    let answer = answer_done(said.outcome);
    Called { pool, book, answer }
}
