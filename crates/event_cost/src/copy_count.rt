// How many copies an answer has.
ghost use Rattle.std.specs.Prelude.{◌≡◌};
ghost use Rattle.event_cost.specs.Told.{copy_count};

use event_answers::Answer;

// Returns how many copies of the buffer the answer has: only a plan's has any.
#[tactic(auto, unfolding(crate::specs::Told::copy_count))]
pub fn copy_count(answer: Answer) -> usize
    ensures { result ≡ copy_count answer }
{
    match answer {
        Answer::Copies(n) => n,
        _ => 0,
    }
}
