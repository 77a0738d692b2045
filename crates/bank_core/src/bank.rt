//! The trait of a bank of devices.
ghost use Rattle.std.specs.Prelude.{◌≡◌, ℕ, ◌+◌, ◌%◌, ◌<◌, ◌≤◌, List, Some, length, IfOk, IfSome, IfNone, IsErrOf};
ghost use Rattle.mp_base.specs.Outside.{Rose};
ghost use Rattle.bank_core.specs.Absent.{IsAbsent};

use mp_base::{MemFault, Name};

/// The bytes of a sector.
pub const SECTOR_BYTES: usize = 4096;

/// Why a call on a device failed. At `Gone` the device itself has disappeared.
#[derive(Clone, Copy, Debug, PartialEq, Eq)]
pub enum Fault {
    Failed,
    Gone,
}

/// Why a look-up gave no answer.
#[derive(Clone, Copy, Debug, PartialEq, Eq)]
pub enum FindFault {
    Fault(Fault),
    Memory,
}

/// The devices of a host. Each has a number below 64, and is a list of sectors of 4,096 bytes, which are
/// read and written in whole pieces. What was written is safe from a crash only after a flush.
///
/// A bank has a count of faults for each device, and one for look-ups. None of them falls. A device's
/// count rises where a call on it fails, and stays at every other call.
pub trait Bank {
    ghost use Rattle.bank_core.specs.Disk.{Read, Write, Flush, sector_size, sectors_in};
    ghost use Rattle.bank_core.specs.BankView.{BankView};
    ghost use Rattle.bank_core.specs.Calls.{Called};
    ghost use Rattle.bank_core.specs.Story.{fault_in};

    /// The bank as its clauses see it.
    ghost view: { Self → BankView };

    /// The number of the device of this name: the same one each time, and another one for each name.
    fn find(&mut self, name: &Name) -> Result<Option<u32>, FindFault>
        ensures found { IfOk result (λ found. found ≡ (view self.new).number_of name.now) }
        ensures absent { IfOk result (λ found. IfNone found (IsAbsent (view self.old).names name.now)) }
        ensures size { IfOk result (λ found. IfSome found (λ dev. 0 < (view self.new).size dev)) }
        ensures limit { IfOk result (λ found. IfSome found (λ dev. dev < 64)) }
        ensures keeps { (other : List ℕ) (dev : ℕ) → (view self.old).number_of other ≡ Some dev → (view self.new).number_of other ≡ Some dev }
        ensures apart { (one other : List ℕ) (dev : ℕ) → (view self.new).number_of one ≡ Some dev → (view self.new).number_of other ≡ Some dev → one ≡ other }
        ensures sizes { (d : ℕ) → 0 < (view self.old).size d → (view self.new).size d ≡ (view self.old).size d }
        ensures names { (view self.new).names ≡ (view self.old).names }
        ensures told { (view self.new).told ≡ (view self.old).told }
        ensures same { (d : ℕ) → (view self.new).faults d ≡ (view self.old).faults d }
        ensures counts { (view self.old).lookup_faults ≤ (view self.new).lookup_faults }
        ensures cause { (fault : Fault) → IsErrOf result (FindFault.Fault fault) → Rose (view self.old).lookup_faults (view self.new).lookup_faults };

    /// How many sectors the device has.
    fn sectors(&self, dev: u32) -> u64
        ensures { result ≡ (view self.now).size dev };

    /// Reads whole sectors from `at` on.
    fn read(&mut self, dev: u32, at: u64, out: &mut [u8]) -> Result<(), Fault>
        requires whole { length out.old % sector_size ≡ 0 }
        requires some { 0 < length out.old }
        requires inside { at + sectors_in out.old ≤ (view self.old).size dev }
        ensures { Called (Read dev at out.new (fault_in result)) (view self.old) (view self.new) };

    /// Writes whole sectors from `at` on. They are pending until a flush that answers `Ok`, also where
    /// the write failed.
    fn write(&mut self, dev: u32, at: u64, bytes: &[u8]) -> Result<(), Fault>
        requires whole { length bytes.now % sector_size ≡ 0 }
        requires some { 0 < length bytes.now }
        requires inside { at + sectors_in bytes.now ≤ (view self.old).size dev }
        ensures { Called (Write dev at bytes.now (fault_in result)) (view self.old) (view self.new) };

    /// Makes what was written to the device stable. At `Ok` each sector whose last write answered `Ok`
    /// holds its bytes from then on, whatever crash comes.
    fn flush(&mut self, dev: u32) -> Result<(), Fault>
        requires { 0 < (view self.old).size dev }
        ensures { Called (Flush dev (fault_in result)) (view self.old) (view self.new) };
}
