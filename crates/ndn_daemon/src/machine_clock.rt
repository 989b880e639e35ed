//! The clock of the machine.
ghost use Rattle.std.specs.Prelude.{◌≡◌};

use node_ports::Moments;
use std::time::{Clock, SystemTime};

/// The machine's clock.
#[derive(Drop)]
pub struct MachineClock<'a, R> {
    rt: &'a R,
    last: u64,
}

impl<'a, R: Clock> MachineClock<'a, R> {
    /// Returns the clock, which has not been read yet.
    pub fn new(rt: &'a R) -> MachineClock<'a, R>
        ensures { result.last ≡ 0 }
    {
        MachineClock { rt, last: 0 }
    }
}

impl<'a, R: Clock> Moments for MachineClock<'a, R> {
    ghost last = { λ clock. clock.last };

    // If the clock gives no time, the time of the last successful reading is returned again, or 0
    // if no reading was successful.
    fn now(&mut self) -> u64 {
        if let Some(now) = milliseconds(self.rt) {
            self.last = now;
        }
        self.last
    }
}

/// Returns the time of the clock in milliseconds since 1970. Returns `None` if the clock cannot be
/// read, or if it shows a time before 1970, or if the number of milliseconds is not below 2^64.
fn milliseconds<R: Clock>(rt: &R) -> Option<u64> {
    let now = SystemTime::now(rt).ok()?;
    let duration = now.duration_since(SystemTime::UNIX_EPOCH).ok()?;
    u64::try_from(duration.as_millis()).ok()
}
