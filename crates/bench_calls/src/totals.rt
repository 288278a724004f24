// What all rounds took, phase by phase, and the sums of what was answered.
use crate::printing::phase_line;

// By the phases' numbers.
#[derive(Clone, Copy)]
pub struct Totals {
    pub times: [u64; 16],
    pub sums: [u64; 16],
}

// Returns the totals of no phase.
pub fn no_totals() -> Totals {
    Totals {
        times: [0; 16],
        sums: [0; 16],
    }
}

// Adds what a phase took and answered.
pub fn added(t: Totals, phase: usize, time: u64, sum: u64) -> Totals {
    let mut u = t;
    if phase < 16 {
        u.times[phase] = t.times[phase].wrapping_add(time);
        u.sums[phase] = t.sums[phase].wrapping_add(sum);
    }
    u
}

// Prints the totals, a line for each phase.
pub fn total_lines(t: Totals) {
    for phase in 0..14 {
        phase_line(phase as u64, t.times[phase], t.sums[phase]);
    }
}
