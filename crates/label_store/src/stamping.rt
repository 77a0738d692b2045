//! Stamps, which give a device an identity and no record, and wipes, which leave it neither.
ghost use Rattle.std.specs.Prelude.{◌≡◌, ℕ, ◌≤◌, List, length, OnErr};
ghost use Rattle.mp_base.specs.Outside.{Rose};
ghost use Rattle.bank_core.specs.Parts.{Part};
ghost use Rattle.bank_core.specs.Story.{fault_in};
ghost use Rattle.label_store.specs.Layout.{labels_of, ring_offset};
ghost use Rattle.label_store.specs.Plans.{label_writes, mark_plan, stamp_plan, wipe_plan, zero_ring};

use crate::label::{write_labels, write_rings};
use crate::layout::{RING_OFFSET, labels_of};
use crate::uberblock::Uberblock;
use bank_core::{Bank, Fault};
use mp_base::{Group, Guid};

/// The bytes of a ring.
pub(crate) const RING_BYTES: usize = 131_072;

/// Gives a device the identity of this member of this pool, and takes every record from it: zeros go
/// over each ring, and then an uberblock of number 0 into each. It stops at its first failed call. At
/// `Ok` all of it stands whatever crash comes; after an `Err` the device may have some of its uberblocks
/// still, and none that it hadn't but those of the new identity.
pub fn stamp<B: Bank>(bank: &mut B, dev: u32, pool: Guid, member: Guid) -> Result<(), Fault>
    requires device { 320 ≤ (B.view bank.old).size dev }
    ensures { Part dev (stamp_plan dev ((B.view bank.old).size dev) pool member)
        (B.view bank.old) (B.view bank.new) (fault_in result) }
{
    clear_rings(bank, dev)?;
    write_rings(
        bank,
        dev,
        &Uberblock {
            pool,
            member,
            number: Group(0),
            length: 0,
            sum: [0; 32],
        },
    )
}

/// Marks a device as a spare one: gives it the identity of no member of no pool, and takes every record
/// from it. It is a stamp of pool 0 and member 0, and stops at its first failed call.
pub fn mark_spare<B: Bank>(bank: &mut B, dev: u32) -> Result<(), Fault>
    requires device { 320 ≤ (B.view bank.old).size dev }
    ensures { Part dev (mark_plan dev ((B.view bank.old).size dev)) (B.view bank.old) (B.view bank.new) (fault_in result) }
{
    stamp(bank, dev, Guid(0), Guid(0))
}

/// Takes every record and the identity from a device: zeros go over each ring, one call each, and then a
/// flush. It stops at its first failed call. At `Ok` no record is found on the device any more, whatever
/// crash comes; after an `Err` it may have some of its uberblocks still, and none that it hadn't.
pub fn wipe<B: Bank>(bank: &mut B, dev: u32) -> Result<(), Fault>
    requires device { 320 ≤ (B.view bank.old).size dev }
    ensures { Part dev (wipe_plan dev ((B.view bank.old).size dev)) (B.view bank.old) (B.view bank.new) (fault_in result) }
{
    clear_rings(bank, dev)?;
    bank.flush(dev)
}

// Writes zeros over each ring.
fn clear_rings<B: Bank>(bank: &mut B, dev: u32) -> Result<(), Fault>
    requires device { 320 ≤ (B.view bank.old).size dev }
    ensures { Part dev (label_writes dev (labels_of ((B.view bank.old).size dev)) ring_offset zero_ring)
        (B.view bank.old) (B.view bank.new) (fault_in result) }
{
    let zeros = zero_ring();
    let labels = labels_of(bank.sectors(dev));
    write_labels(bank, dev, &labels, RING_OFFSET, &zeros)
}

#[tactic(auto, unfolding(crate::specs::Plans::zero_ring, mp_base::specs::Block::zeros))]
fn zero_ring() -> [u8; RING_BYTES]
    ensures { result ≡ zero_ring }
{
    [0; RING_BYTES]
}
