// Whether lent memory forms a pool, for all numbers that it may hold: the test that every call of the checked face makes. A pass
// a condition, with an early return at the first that fails; the histories last, for they are most of the work.
#![tactic(auto)]

mod calls;
mod counts_fit;
mod numbers_fit;
mod rings_fit;

pub use calls::is_pool::is_pool;
