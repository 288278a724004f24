// One line of a list run on lent memory: numbers put, a call of the checked face made or a query asked, and its answer printed.
#![tactic(auto)]

mod answering;
mod reply;
mod session;
mod stepping;

pub use session::{Session, fresh, next_line};
pub use stepping::run_step;
