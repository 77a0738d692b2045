//! Writes into the labels of one device.
ghost use Rattle.std.specs.Prelude.{◌≡◌, ℕ, ◌+◌, ◌%◌, ◌^◌, ◌<◌, ◌≤◌, List, length, EachIndex, slice_index, OnErr};
ghost use Rattle.mp_base.specs.Outside.{Rose};
ghost use Rattle.bank_core.specs.Disk.{sector_size, sectors_in};
ghost use Rattle.bank_core.specs.Parts.{Part};
ghost use Rattle.bank_core.specs.Story.{fault_in};
ghost use Rattle.label_store.specs.Plans.{label_writes, config_plan, ring_plan};

use crate::layout::{CONFIG_OFFSET, RING_OFFSET, RING_SLOTS, labels_of};
use crate::uberblock::{Uberblock, write_uberblock};
use bank_core::{Bank, Fault, SECTOR_BYTES};

/// Writes the bytes at one place of each of these labels, one call each, up to the first that fails.
pub(crate) fn write_labels<B: Bank>(
    bank: &mut B,
    dev: u32,
    labels: &[u64],
    offset: u64,
    bytes: &[u8],
) -> Result<(), Fault>
    requires whole { length bytes.now % sector_size ≡ 0 }
    requires some { 0 < length bytes.now }
    requires inside { EachIndex labels.now (λ k. slice_index labels.now k + offset + sectors_in bytes.now ≤ (B.view bank.old).size dev) }
    requires fits { EachIndex labels.now (λ k. slice_index labels.now k + offset < 2 ^ 64) }
    ensures { Part dev (label_writes dev labels.now offset bytes.now)
        (B.view bank.old) (B.view bank.new) (fault_in result) }
{
    for at in labels {
        bank.write(dev, *at + offset, bytes)?;
    }
    Ok(())
}

/// Writes a configuration into these labels, and flushes it.
pub(crate) fn write_config<B: Bank>(
    bank: &mut B,
    dev: u32,
    labels: &[u64],
    blob: &[u8],
) -> Result<(), Fault>
    requires whole { length blob.now % sector_size ≡ 0 }
    requires some { 0 < length blob.now }
    requires device { 0 < (B.view bank.old).size dev }
    requires inside { EachIndex labels.now (λ k. slice_index labels.now k + 4 + sectors_in blob.now ≤ (B.view bank.old).size dev) }
    requires fits { EachIndex labels.now (λ k. slice_index labels.now k + 4 < 2 ^ 64) }
    ensures { Part dev (config_plan dev labels.now blob.now)
        (B.view bank.old) (B.view bank.new) (fault_in result) }
{
    write_labels(bank, dev, labels, CONFIG_OFFSET, blob)?;
    bank.flush(dev)
}

/// Writes an uberblock into its slot of each ring, and flushes it.
pub(crate) fn write_rings<B: Bank>(bank: &mut B, dev: u32, u: &Uberblock) -> Result<(), Fault>
    requires device { 320 ≤ (B.view bank.old).size dev }
    ensures { Part dev (ring_plan dev ((B.view bank.old).size dev) u.now)
        (B.view bank.old) (B.view bank.new) (fault_in result) }
{
    let mut sector = [0; SECTOR_BYTES];
    write_uberblock(u, &mut sector);
    let labels = labels_of(bank.sectors(dev));
    write_labels(
        bank,
        dev,
        &labels,
        RING_OFFSET + u.number.0 % RING_SLOTS,
        &sector,
    )?;
    bank.flush(dev)
}
