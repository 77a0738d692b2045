//! The look-ups with which a run begins.
ghost use Rattle.std.specs.Prelude.{◌≡◌, ℕ, ◌<◌, ◌≤◌, ◌⊎◌, List, Option, Some, None, IsTrue, IfOk, OnOk, slice_get, take};
ghost use Rattle.mp_base.specs.Name.{is_name};
ghost use Rattle.mp_base.specs.Outside.{Rose};
ghost use Rattle.bank_core.specs.Absent.{IsAbsent};
ghost use Rattle.host_core.specs.Standing.{AreApart};
ghost use Rattle.script_front.specs.FixedHost.{host_devices};
ghost use Rattle.script_front.specs.LookingUp.{AreLookedUp, LooksUp};

use bank_core::{Bank, FindFault};
use host_core::HostDevice;
use mp_base::{MemFault, Name, NameFault};
use std::alloc::Global;

/// How many devices the host has, as long as no host file names them.
pub const HOST_DEVICES: usize = 7;

// Looks every device of the host up.
pub(crate) fn find_devices<B: Bank>(
    alloc: Global,
    bank: &mut B,
) -> Result<Vec<HostDevice>, MemFault>
    ensures found { IfOk result (λ table. AreLookedUp (B.view bank.new).number_of (B.view bank.new).size (B.view bank.old).names
        (B.view bank.old).lookup_faults (B.view bank.new).lookup_faults host_devices table.items) }
    ensures apart { IfOk result (λ table. AreApart table.items) }
    ensures told { (B.view bank.new).told ≡ (B.view bank.old).told }
    ensures faults { (d : ℕ) → (B.view bank.new).faults d ≡ (B.view bank.old).faults d }
{
    let mut table = Vec::with_capacity(alloc, HOST_DEVICES)?;
    for i in 0..HOST_DEVICES {
        let device = look_up(alloc, bank, i)?;
        table.push(device)?;
    }
    Ok(table)
}

// Looks one device of the host up. It isn't there where its look-up finds nothing, or fails.
fn look_up<B: Bank>(alloc: Global, bank: &mut B, i: usize) -> Result<HostDevice, MemFault>
    requires { i < 7 }
    ensures looked_up { IfOk result (LooksUp (B.view bank.new).number_of (B.view bank.new).size (B.view bank.old).names
        (B.view bank.old).lookup_faults (B.view bank.new).lookup_faults i) }
    ensures keeps { (other : List ℕ) (dev : ℕ) → (B.view bank.old).number_of other ≡ Some dev → (B.view bank.new).number_of other ≡ Some dev }
    ensures apart { OnOk result ((one other : List ℕ) (dev : ℕ) → (B.view bank.new).number_of one ≡ Some dev → (B.view bank.new).number_of other ≡ Some dev → one ≡ other) }
    ensures sizes { (d : ℕ) → 0 < (B.view bank.old).size d → (B.view bank.new).size d ≡ (B.view bank.old).size d }
    ensures names { (B.view bank.new).names ≡ (B.view bank.old).names }
    ensures told { (B.view bank.new).told ≡ (B.view bank.old).told }
    ensures faults { (d : ℕ) → (B.view bank.new).faults d ≡ (B.view bank.old).faults d }
    ensures lookups { (B.view bank.old).lookup_faults ≤ (B.view bank.new).lookup_faults }
{
    let name = match Name::new(alloc, host_device(i)) {
        Ok(name) => name,
        Err(NameFault::Memory) => return Err(MemFault),
        Err(NameFault::Bad) => unreachable!(),
    };
    let dev = find(bank, &name)?;
    let sectors = sectors(bank, dev);
    Ok(HostDevice::new(name, dev, sectors))
}

// Looks one name up: nothing is found where the look-up fails, too.
fn find<B: Bank>(bank: &mut B, name: &Name) -> Result<Option<u32>, MemFault>
    ensures some { IfOk result (λ found. (dev : ℕ) → found ≡ Some dev → ((B.view bank.new).number_of name.now ≡ Some dev) × (0 < (B.view bank.new).size dev)) }
    ensures none { IfOk result (λ found. found ≡ None → IsAbsent (B.view bank.old).names name.now ⊎ Rose (B.view bank.old).lookup_faults (B.view bank.new).lookup_faults) }
    ensures keeps { (other : List ℕ) (dev : ℕ) → (B.view bank.old).number_of other ≡ Some dev → (B.view bank.new).number_of other ≡ Some dev }
    ensures apart { (one other : List ℕ) (dev : ℕ) → (B.view bank.new).number_of one ≡ Some dev → (B.view bank.new).number_of other ≡ Some dev → one ≡ other }
    ensures sizes { (d : ℕ) → 0 < (B.view bank.old).size d → (B.view bank.new).size d ≡ (B.view bank.old).size d }
    ensures names { (B.view bank.new).names ≡ (B.view bank.old).names }
    ensures told { (B.view bank.new).told ≡ (B.view bank.old).told }
    ensures faults { (d : ℕ) → (B.view bank.new).faults d ≡ (B.view bank.old).faults d }
    ensures lookups { (B.view bank.old).lookup_faults ≤ (B.view bank.new).lookup_faults }
{
    match bank.find(name) {
        Ok(Some(dev)) => Ok(Some(dev)),
        Ok(None) | Err(FindFault::Fault(_)) => Ok(None),
        Err(FindFault::Memory) => Err(MemFault),
    }
}

// How many sectors a device has, if it was found.
fn sectors<B: Bank>(bank: &B, found: Option<u32>) -> u64
    ensures { (dev : ℕ) → found ≡ Some dev → result ≡ (B.view bank.now).size dev }
{
    match found {
        Some(dev) => bank.sectors(dev),
        None => 0,
    }
}

/// The name of a device of the host.
pub fn host_device(i: usize) -> &'static [u8]
    requires { i < 7 }
    ensures is { slice_get host_devices i ≡ Some result.now }
    ensures name { IsTrue (is_name result.now) }
{
    match i {
        0 => b"a",
        1 => b"b",
        2 => b"c",
        3 => b"d",
        4 => b"n",
        5 => b"s",
        _ => b"t",
    }
}
