// The pool's model and rules (specs/), and the budget.
#![tactic(auto)]

mod budget;
mod constants;
mod held;
mod places;

pub use budget::VersionBudget;
pub use constants::{
    DESTROY_SPREAD_DRAINS, GRID_STRIDE, LIMIT, MIN_DESTROYS_PER_DRAIN, MOST_GRIDS, MOST_PLACES,
    SPARE_MAX_IDLE_SUBMITS, STATE_MAX_IDLE_SUBMITS,
};
pub use held::Held;
pub use places::newest_length;
