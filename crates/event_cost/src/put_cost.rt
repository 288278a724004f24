// The line of output of an event. Each function puts its bytes from `at` on and returns where they end.
ghost use Rattle.std.specs.Prelude.{◌+◌, ◌≤◌, ◌≡◌, [], ◌∷◌, length};
ghost use Rattle.base_digits.specs.Put.{Put};
ghost use Rattle.event_answers.specs.Printed.{accepted_row};
ghost use Rattle.event_cost.specs.Costs.{is_plan, sum_field, most_cost_row};
ghost use Rattle.event_cost.specs.Told.{event_told, row_told};

use crate::put_sum::put_last_sum;
use event_answers::{Answer, put_accepted, put_row};
use event_lines::Event;

// Returns whether the event is a plan.
#[tactic(auto, unfolding(crate::specs::Costs::is_plan))]
fn is_plan(event: Event) -> bool
    ensures { result ≡ is_plan event }
{
    matches!(event, Event::Plan { .. })
}

// Puts the line of an accepted plan.
fn put_bytes(out: &mut [u8], at: usize, number: u64, bytes: u64) -> usize
    requires { at + most_cost_row ≤ length out.old }
    ensures { (result ≤ at + most_cost_row) × Put out.old at (accepted_row number (sum_field bytes ∷ [])) result out.new }
{
    let start = put_accepted(out, at, number);
    put_last_sum(out, start, bytes)
}

// Puts the line of a plan, whose copies move this many bytes. One that was not called has none.
fn put_plan(out: &mut [u8], at: usize, number: u64, answer: Answer, bytes: u64) -> usize
    requires { at + most_cost_row ≤ length out.old }
    ensures { (result ≤ at + most_cost_row) × Put out.old at (row_told number bytes answer) result out.new }
{
    match answer {
        Answer::Refused(refusal) => put_row(out, at, number, refusal),
        Answer::Copies(_) => put_bytes(out, at, number, bytes),
        _ => at,
    }
}

// Puts the line of an event. Only a plan has one.
pub fn put_cost(
    out: &mut [u8],
    at: usize,
    number: u64,
    event: Event,
    answer: Answer,
    bytes: u64,
) -> usize
    requires { at + most_cost_row ≤ length out.old }
    ensures { (result ≤ at + most_cost_row) × Put out.old at (event_told number bytes event answer) result out.new }
{
    if is_plan(event) {
        return put_plan(out, at, number, answer, bytes);
    }
    at
}
