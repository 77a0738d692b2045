//! The time.
ghost use Rattle.std.specs.Prelude.{◌≡◌, ℕ, List, [], ◌∷◌, ◌++◌, Option, Some};
ghost use Rattle.mp_base.specs.Outside.{Taken};

use crate::MemFault;
use std::alloc::Global;

/// A clock that is asked for the second.
pub trait Clock {
    /// The seconds that it gave, where it tells.
    ghost gave: { Self → Option (List ℕ) };

    /// The second now. It may be before an earlier answer.
    fn now(&mut self) -> u64
        ensures { Taken (gave self.old) (gave self.new) (result ∷ []) };
}

/// A clock in memory, which stands still until it is set. It keeps the seconds that it gave as long as its
/// list finds memory; one that has room goes on telling.
#[derive(Drop)]
pub struct MemClock {
    second: u64,
    gave: Vec<u64>,
    tells: bool,
}

impl MemClock {
    ghost use Rattle.std.specs.Prelude.{◌+◌, ◌<◌, ◌≤◌, OnOk, OnErr};
    ghost use Rattle.mp_base.specs.Memory.{clock_second, clock_seconds, clock_room};

    /// A clock that stands at this second.
    pub fn new(alloc: Global, second: u64) -> MemClock
        ensures gave { clock_seconds result ≡ Some [] }
        ensures second { clock_second result ≡ second }
    {
        MemClock {
            second,
            gave: Vec::new(alloc),
            tells: true,
        }
    }

    /// Takes the room for so many further seconds.
    pub fn reserve(&mut self, seconds: usize) -> Result<(), MemFault>
        ensures room { OnOk result (seconds ≤ clock_room self.new) }
        ensures gave { clock_seconds self.new ≡ clock_seconds self.old }
        ensures second { clock_second self.new ≡ clock_second self.old }
    {
        self.gave.reserve(seconds)?;
        Ok(())
    }

    /// From now on it stands at this second.
    pub fn set(&mut self, second: u64)
        ensures gave { clock_seconds self.new ≡ clock_seconds self.old }
        ensures room { clock_room self.new ≡ clock_room self.old }
        ensures second { clock_second self.new ≡ second }
    {
        self.second = second;
    }
}

impl Clock for MemClock {
    ghost use Rattle.std.specs.Prelude.{◌+◌, ◌<◌};
    ghost use Rattle.mp_base.specs.Memory.{clock_second, clock_seconds, clock_room};

    ghost gave = { clock_seconds };

    // Where its list finds no memory it stops telling, for good.
    fn now(&mut self) -> u64
        ensures gave { Taken (clock_seconds self.old) (clock_seconds self.new) (result ∷ []) }
        ensures tells { (before : List ℕ) → 0 < clock_room self.old → clock_seconds self.old ≡ Some before → clock_seconds self.new ≡ Some (before ++ result ∷ []) }
        ensures second { result ≡ clock_second self.old }
        ensures stands { clock_second self.new ≡ clock_second self.old }
    {
        if self.tells && self.gave.push(self.second).is_err() {
            self.tells = false;
        }
        self.second
    }
}
