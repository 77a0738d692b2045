//! The program's clock. Which seconds it gives isn't told.
ghost use Rattle.std.specs.Prelude.{None};

use mp_base::Clock;
use std::rt;
use std::time::{SystemTime, UNIX_EPOCH};

/// The clock of the system, in seconds since the first of January 1970 in UTC. It gives 0 where it can't
/// be read, or stands before that.
#[derive(Drop)]
pub struct SystemClock<'r, R: rt::Clock> {
    rt: &'r R,
}

impl<'r, R: rt::Clock> SystemClock<'r, R> {
    /// The clock of this runtime.
    pub fn new(rt: &'r R) -> SystemClock<'r, R> {
        SystemClock { rt }
    }
}

impl<'r, R: rt::Clock> Clock for SystemClock<'r, R> {
    ghost gave = { λ clock. None };

    fn now(&mut self) -> u64 {
        seconds(self.rt).unwrap_or(0)
    }
}

// The seconds since 1970, where the clock can be read and stands behind it.
fn seconds(rt: &impl rt::Clock) -> Option<u64> {
    let now = SystemTime::now(rt).ok()?;
    let since = now.duration_since(UNIX_EPOCH).ok()?;
    Some(since.as_secs())
}
