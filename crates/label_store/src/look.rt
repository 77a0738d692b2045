//! Looks at all labels of devices.
ghost use Rattle.std.specs.Prelude.{◌≡◌, ℕ, ◌+◌, ◌<◌, ◌≤◌, List, length, IfOk, OnErr, slice_get, Some};
ghost use Rattle.label_store.specs.Newest.{look_asks, Looks, FindsNewest, ReadsOnly};
ghost use Rattle.label_store.specs.Opening.{ReadsPart};

use crate::found::Found;
use crate::layout::{CONFIG_OFFSET, CONFIG_SECTORS, RING_OFFSET, RING_SLOTS, labels_of};
use crate::opening::best_of;
use crate::part::Part;
use crate::rule::BlobRule;
use bank_core::{Bank, SECTOR_BYTES};
use mp_base::{MemFault, Name};
use std::alloc::Global;

/// The record of this name with the greatest number that is verified on one of these devices; of two with
/// one number that of the first device, and on one device that of the first label and slot. The ring and
/// the configuration part of each label are read once for each time that the device stands in the list,
/// one read each, and are left out only where that read failed.
/// `None` comes only where no record of the name is verified by what was read. Where there is no memory,
/// no device was written.
pub fn newest<B: Bank, R: BlobRule>(
    alloc: Global,
    bank: &mut B,
    devs: &[u32],
    name: &Name,
) -> Result<Option<Found>, MemFault>
    requires devices { (i dev : ℕ) → slice_get devs.now i ≡ Some dev → 320 ≤ (B.view bank.old).size dev }
    ensures finds { IfOk result (λ best. FindsNewest R.head_of (B.view bank.old).size devs.now name.now
        (B.view bank.old) (B.view bank.new) best) }
    ensures reads { OnErr result (ReadsOnly (B.view bank.old) (B.view bank.new)) }
{
    let mut best = None;
    for dev in devs {
        let parts = look(alloc, bank, *dev)?;
        best = best_of::<R>(alloc, &parts, name, best)?;
    }
    Ok(best)
}

// Reads the ring and the configuration part of each label of a device.
fn look<B: Bank>(alloc: Global, bank: &mut B, dev: u32) -> Result<Vec<Part>, MemFault>
    requires device { 320 ≤ (B.view bank.old).size dev }
    ensures eight { IfOk result (λ parts. length parts.items ≡ 8) }
    ensures looks { IfOk result (λ parts. Looks (look_asks dev ((B.view bank.old).size dev))
        (B.view bank.old) (B.view bank.new) parts.items) }
    ensures reads { OnErr result (ReadsOnly (B.view bank.old) (B.view bank.new)) }
{
    let mut parts = Vec::new(alloc);
    let labels = labels_of(bank.sectors(dev));
    for at in &labels {
        parts.push(read_part(alloc, bank, dev, *at + RING_OFFSET, RING_SLOTS as usize)?)?;
        parts.push(read_part(alloc, bank, dev, *at + CONFIG_OFFSET, CONFIG_SECTORS)?)?;
    }
    Ok(parts)
}

fn read_part<B: Bank>(
    alloc: Global,
    bank: &mut B,
    dev: u32,
    at: u64,
    sectors: usize,
) -> Result<Part, MemFault>
    requires some { 0 < sectors }
    requires few { sectors ≤ 32 }
    requires inside { at + sectors ≤ (B.view bank.old).size dev }
    ensures read { IfOk result (λ part. ReadsPart dev at sectors (B.view bank.old) (B.view bank.new) part) }
    ensures reads { OnErr result (ReadsOnly (B.view bank.old) (B.view bank.new)) }
{
    let mut bytes = vec![in alloc; 0; sectors * SECTOR_BYTES]?;
    match bank.read(dev, at, &mut bytes) {
        Ok(()) => Ok(Part::read(bytes)),
        Err(_) => Ok(Part::failed()),
    }
}
