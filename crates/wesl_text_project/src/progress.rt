//! How far a link is, told on standard error.
use std::time::{Duration, Instant};

// How many seconds pass before it is told, and told again.
const SECONDS: u64 = 1;

/// Tells how many modules were read, whenever a module is read and more than a second has passed since it began, or told it last.
#[derive(Clone, Copy)]
pub struct Progress {
    rt: HostRuntime,
    last: Option<Instant>,
}

impl Progress {
    /// One that begins now. Without a clock it never tells anything.
    pub fn new(rt: HostRuntime) -> Progress {
        Progress {
            rt,
            last: Instant::now(&rt).ok(),
        }
    }

    /// Tells that so many modules were read, if it is time.
    pub fn tell(&mut self, count: usize) {
        let Some(last) = self.last else {
            return;
        };
        let Some(now) = Instant::now(&self.rt).ok() else {
            return;
        };
        if now.duration_since(last) > Duration::from_secs(SECONDS) {
            self.last = Some(now);
            let rt = self.rt;
            let _ = eprintln!(rt; "wesl-text: {count} modules were read");
        }
    }
}
