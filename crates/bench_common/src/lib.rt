// What the benchmarks have in common: their arguments, the clock, numbers that look drawn, lent memory, shapes, and lines of figures.
#![tactic(auto)]

mod arguments;
mod clock;
mod printing;
mod random;
mod room;
mod shape;

pub use arguments::{argument, is_given};
pub use clock::{elapsed, idle_time, reading};
pub use printing::{STDOUT_FILENO, line};
pub use random::{mixed, random_from};
pub use room::{doomed_places, retiring_places, spare_places, texture_places};
pub use shape::plain_shape;
