// How far an input was run.
use event_sessions::Session;

#[derive(Clone, Copy)]
pub struct Run {
    pub session: Session,
    // Lines run so far.
    pub number: u64,
    // Bytes of the input before the next line.
    pub from: usize,
    // Bytes of output in the buffer.
    pub filled: usize,
}
