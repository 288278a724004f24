// The question on budgets, answered by the crate `pool_rules`.
use crate::answer::{Answer, Rest};
use event_text::number_of;
use pool_rules::VersionBudget;

// Answers WORKING_SET with the cap, the line and where parking resumes. A second field is malformed too, since a comma is no digit.
pub fn budget_of(fields: &[u8]) -> Option<Answer> {
    let budget = VersionBudget::from_working_set(number_of(fields)?);
    Some(Answer {
        first: budget.cap,
        rest: Rest::Pair(budget.line, budget.resume_below()),
    })
}
