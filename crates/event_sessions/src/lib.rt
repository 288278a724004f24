// What a line's event does: the call that it asks for, on the pool as the lines before left it.
#![tactic(auto)]

mod answered;
mod answering;
mod beginning;
mod call_event;
mod opening;
mod session;
mod stores;

pub use answered::Answered;
pub use answering::answer_event;
pub use beginning::fresh;
pub use session::Session;
pub use stores::Stores;
