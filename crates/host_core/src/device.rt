//! The devices of a host.
ghost use Rattle.std.specs.Prelude.{◌≡◌};

use mp_base::Name;
use std::marker::Model;

/// A device that the host names: its number in the bank of this run, None where it wasn't found, and how many sectors of 4,096 bytes
/// it has.
#[derive(Drop)]
pub struct HostDevice {
    name: Name,
    number: Option<u32>,
    sectors: u64,
}

impl Model for HostDevice {
    ghost use Rattle.pool_runs.specs.Devices.{Device};

    ghost Value = { Device };

    ghost view = { λ device. record {
      name = device.name;
      number = device.number;
      sectors = device.sectors;
    } };
}

impl HostDevice {
    /// A device of this name, as it was looked up.
    pub fn new(name: Name, number: Option<u32>, sectors: u64) -> HostDevice
        ensures { result ≡ record { name = name; number = number; sectors = sectors } }
    {
        HostDevice {
            name,
            number,
            sectors,
        }
    }
}
