//! The record that an opening takes.
ghost use Rattle.std.specs.Prelude.{IfOk};
ghost use Rattle.txg_history.specs.Looks.{AreDistinct, HaveRoom};
ghost use Rattle.open_pool.specs.Seeking.{SeeksOrStops, HasConfig};

use crate::freeze::LAST_NUMBER;
use bank_core::Bank;
use label_store::{Found, newest};
use mp_base::{MemFault, Name};
use pool_codec::ConfigRule;
use std::alloc::Global;

/// Why an opening takes no record.
#[derive(Clone, Copy, Debug, PartialEq, Eq)]
pub enum SeekFault {
    /// No record of the name is verified by what was read.
    NoRecord,
    /// The record's number is at the limit, and this is the one that its commit would draw.
    NumbersEnd { limit: u64, count: u64 },
    /// There was no memory.
    Memory,
}

impl From<MemFault> for SeekFault {
    ghost use Rattle.std.specs.Prelude.{◌≡◌};
    ghost use Rattle.open_pool.specs.declared.seeking.SeekFault.TheVariants.{Memory};

    ghost from_gives = { λ _ e. e ≡ Memory };

    fn from(_: MemFault) -> SeekFault {
        SeekFault::Memory
    }
}

/// The verified record of this name with the greatest number, by the labels of all devices that are handed in. Each ring and
/// each configuration part is read once, and no device is written. Its bytes are a configuration with its name, pool and number.
pub fn seek<B: Bank>(
    alloc: Global,
    bank: &mut B,
    devs: &[u32],
    name: &Name,
) -> Result<Found, SeekFault>
    requires distinct { AreDistinct devs.now }
    requires room { HaveRoom (B.view bank.old).size devs.now }
    ensures row { SeeksOrStops devs.now name.now result (B.view bank.old) (B.view bank.new) }
    ensures config { IfOk result (HasConfig name.now) }
{
    let Some(found) = newest::<B, ConfigRule>(alloc, bank, devs, name)? else {
        return Err(SeekFault::NoRecord);
    };
    let number = found.number.0;
    if number >= LAST_NUMBER {
        return Err(SeekFault::NumbersEnd {
            limit: LAST_NUMBER,
            count: number + 1,
        });
    }
    Ok(found)
}
