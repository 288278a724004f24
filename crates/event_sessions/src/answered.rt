// An answer, with the session that comes after it.
use crate::session::Session;
use event_answers::Answer;

#[derive(Clone, Copy)]
pub struct Answered {
    pub session: Session,
    pub answer: Answer,
}
