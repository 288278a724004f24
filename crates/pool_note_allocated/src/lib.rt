// The call `note_allocated`: under pressure the oldest spares of all textures go to the destroy queue, until their bytes cover the
// excess.
#![tactic(auto)]

mod calls;
mod give;
mod relieve;

pub use calls::note_allocated::{NotedAnswer, note_allocated};
pub use give::give_spares;
