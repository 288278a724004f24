// The order of a plan: slice by slice, level by level.
ghost use Rattle.std.specs.Prelude.{◌≡◌, ◌+◌, ◌*◌, ◌≤◌, ◌<◌};
ghost use Rattle.pool_rules.specs.RuleConstants.{most_grids};

// A slice's level.
#[derive(Clone, Copy)]
pub struct Subresource {
    pub slice: u64,
    pub level: u64,
}

// Returns the subresource after this one: after a slice's last level comes the next slice's first.
pub fn next_subresource(at: Subresource, levels: u64) -> Subresource
    requires { (at.slice ≤ most_grids) × (at.level < levels) }
    ensures { (result.slice ≤ at.slice + 1) × (result.level < levels) × (result.slice * levels + result.level ≡ at.slice * levels + at.level + 1) }
{
    if at.level + 1 < levels {
        return Subresource {
            slice: at.slice,
            level: at.level + 1,
        };
    }
    Subresource {
        slice: at.slice + 1,
        level: 0,
    }
}
