//! The devices of a host.
ghost use Rattle.std.specs.Prelude.{◌≡◌};

use mp_base::Name;

/// The fewest sectors of a device that may become a member.
const FEWEST_SECTORS: u64 = 320;

/// A device that the host names: its number in the bank, None where it wasn't found at start, its size
/// in sectors of 4,096 bytes, and whether it is a spare device, which never becomes a member by itself.
#[derive(Drop)]
pub struct HostDevice {
    pub name: Name,
    pub dev: Option<u32>,
    pub sectors: u64,
    pub spare: bool,
}

impl HostDevice {
    ghost use Rattle.host_machine.specs.Devices.{handed, usable};

    /// The device's number, if its labels are read at an opening.
    pub fn handed(&self) -> Option<u32>
        ensures { result ≡ handed self.now }
    {
        if self.sectors >= FEWEST_SECTORS {
            self.dev
        } else {
            None
        }
    }

    /// The device's number, if it may become a member.
    pub fn usable(&self) -> Option<u32>
        ensures { result ≡ usable self.now }
    {
        if self.spare { None } else { self.handed() }
    }
}
