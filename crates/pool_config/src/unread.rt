//! Why bytes gave no configuration.
ghost use Rattle.std.specs.Prelude.{◌≡◌};
ghost use Rattle.pool_config.specs.declared.unread.Unread.TheVariants.{Memory};

use mp_base::{MemFault, NameFault};
use std::alloc::AllocFailed;

/// What ends a reading.
#[derive(Drop)]
pub(crate) enum Unread {
    /// The bytes are no configuration.
    NoConfig,
    /// There was no memory.
    Memory,
}

impl From<MemFault> for Unread {
    ghost from_gives = { λ _ e. e ≡ Memory };

    fn from(_: MemFault) -> Unread {
        Unread::Memory
    }
}

impl<T: Drop> From<AllocFailed<T>> for Unread {
    ghost from_gives = { λ _ e. e ≡ Memory };

    fn from(_: AllocFailed<T>) -> Unread {
        Unread::Memory
    }
}

impl From<NameFault> for Unread {
    ghost use Rattle.pool_config.specs.Faults.{unread_of};

    ghost from_gives = { λ fault e. e ≡ unread_of fault };

    fn from(fault: NameFault) -> Unread {
        match fault {
            NameFault::Bad => Unread::NoConfig,
            NameFault::Memory => Unread::Memory,
        }
    }
}
