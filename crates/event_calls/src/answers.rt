// What a call answers, as the answer of a line.
ghost use Rattle.std.specs.Prelude.{◌≡◌};
ghost use Rattle.grid_shapes.specs.Outcomes.{outcome_number};
ghost use Rattle.pool_memory.specs.Calls.{told_number};
ghost use Rattle.pool_take_spare.specs.Answer.{taken_told};
ghost use Rattle.pool_preserve_plan.specs.PreservePlan.{planned_told};
ghost use Rattle.pool_retire.specs.Answers.{popped_told};
ghost use Rattle.pool_take_doomed.specs.Answer.{handed_told};
ghost use Rattle.event_calls.specs.Calls.{done_answer, taken_answer, popped_answer, views_answer, copies_answer};

use event_answers::Answer;
use grid_shapes::Refusal;
use pool_memory::{PoppedVersion, TakenVersion};

// Returns the answer of a call that says its outcome alone.
pub fn answer_done(outcome: Result<(), Refusal>) -> Answer
    ensures { result ≡ done_answer (told_number (outcome_number outcome)) }
{
    match outcome {
        Ok(()) => Answer::Done,
        Err(why) => Answer::Refused(why.number()),
    }
}

// Returns the answer of take_spare.
pub fn answer_taken(taken: Result<Option<TakenVersion>, Refusal>) -> Answer
    ensures { result ≡ taken_answer (taken_told taken) }
{
    match taken {
        Ok(Some(spare)) => Answer::Spare(spare.view, spare.held),
        Ok(None) => Answer::NoSpare,
        Err(refusal) => Answer::Refused(refusal.number()),
    }
}

// Returns the answer of preserve_plan.
pub fn answer_planned(planned: Result<usize, Refusal>) -> Answer
    ensures { result ≡ copies_answer (planned_told planned) }
{
    match planned {
        Ok(copies) => Answer::Copies(copies),
        Err(refusal) => Answer::Refused(refusal.number()),
    }
}

// Returns the answer of pop_retired.
pub fn answer_popped(popped: Result<Option<PoppedVersion>, Refusal>) -> Answer
    ensures { result ≡ popped_answer (popped_told popped) }
{
    match popped {
        Ok(Some(version)) => Answer::Version(version.id, version.view),
        Ok(None) => Answer::NothingSettled,
        Err(refusal) => Answer::Refused(refusal.number()),
    }
}

// Returns the answer of take_doomed and of drain_versions.
pub fn answer_handed(handed: Result<usize, Refusal>) -> Answer
    ensures { result ≡ views_answer (handed_told handed) }
{
    match handed {
        Ok(views) => Answer::Views(views),
        Err(refusal) => Answer::Refused(refusal.number()),
    }
}
