// The processor time of the process, in microseconds.
use std::time::CpuClock;

// Reads the clock. Where it has no time, or one past the largest number, that is 0.
pub fn reading(clock: &impl CpuClock) -> u64 {
    match clock.process_cpu_time() {
        Ok(time) => u64::try_from(time.as_micros()).unwrap_or(0),
        Err(_) => 0,
    }
}

// Returns the time since a reading.
pub fn elapsed(clock: &impl CpuClock, start: u64) -> u64 {
    reading(clock).wrapping_sub(start)
}

// Reads the clock k times, one right after the other: what reading it costs.
pub fn idle_time(clock: &impl CpuClock, k: u64) -> u64 {
    let mut sum = 0u64;
    for _ in 0..k {
        sum = sum.wrapping_add(elapsed(clock, reading(clock)));
    }
    sum
}
