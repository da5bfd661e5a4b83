// How a thread rests that finds no room, or nothing to do.
use std::sync::Wait;
use std::sync::atomic::AtomicU64;
use std::time::Duration;

/// Rests for so many microseconds, or somewhat longer. It ends by itself, whoever is there.
pub(crate) fn nap<R: Wait>(rt: &R, micros: u64) {
    AtomicU64::new(0).park_timeout(rt, 0, Duration::from_micros(micros));
}
