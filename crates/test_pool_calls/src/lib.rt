// Each call of the checked face `pool`, made on lent memory that may form a pool or not, and what a line prints of it.
#![tactic(auto)]

mod answers;
mod called;
mod calls;
mod making;
mod queried;
mod queries;

pub use called::Called;
pub use making::make_event;
pub use queried::{Queried, Told};
pub use queries::make_query;
