// Sums of bytes that stop at the largest number instead of wrapping.
ghost use Rattle.std.specs.Prelude.{◌≡◌};
ghost use Rattle.event_cost.specs.Costs.{clipped_sums, plus};

// The bytes that copies move, and those that they would move if each were of its whole level.
#[derive(Clone, Copy)]
pub struct Sums {
    pub moved: u64,
    pub whole: u64,
}

// Returns both sums of `a` and `b`.
#[tactic(auto, unfolding(crate::specs::Costs::clipped, crate::specs::Costs::clipped_sums, crate::specs::Costs::plus))]
pub fn add_sums(a: Sums, b: Sums) -> Sums
    ensures { result ≡ clipped_sums (plus a b) }
{
    Sums {
        moved: a.moved.saturating_add(b.moved),
        whole: a.whole.saturating_add(b.whole),
    }
}
