//! The identity of a device: which member of which pool an uberblock in one of its rings names.
ghost use Rattle.std.specs.Prelude.{◌≡◌, ℕ, ◌≤◌, ◌+◌, true, false, Ok, Err, List, length, OnErr};
ghost use Rattle.mp_base.specs.Outside.{Rose};
ghost use Rattle.label_store.specs.Identities.{HasIdentity, NamesMember, Searches, ReadsRing, fault_or, search_outcome};
ghost use Rattle.bank_core.specs.Story.{fault_in};

use crate::layout::{RING_OFFSET, labels_of};
use crate::stamping::RING_BYTES;
use crate::uberblock::read_uberblock;
use bank_core::{Bank, Fault, SECTOR_BYTES};
use mp_base::Guid;

/// Whether the device has the identity of this member of this pool. The rings are read one after another
/// until one gives it. `Ok(false)` comes only where every ring was read.
pub fn identity<B: Bank>(bank: &mut B, dev: u32, pool: Guid, member: Guid) -> Result<bool, Fault>
    requires device { 320 ≤ (B.view bank.old).size dev }
    ensures { Searches pool member dev ((B.view bank.old).size dev)
        (B.view bank.old) (B.view bank.new) result }
{
    let mut ring = [0; RING_BYTES];
    let labels = labels_of(bank.sectors(dev));
    let mut failed = None;
    for at in &labels {
        let found = read_ring(bank, dev, *at + RING_OFFSET, pool, member, &mut ring);
        if is_found(found) {
            return Ok(true);
        }
        failed = first_fault(failed, found);
    }
    outcome(failed)
}

fn is_found(found: Result<bool, Fault>) -> bool
    ensures yes { result ≡ true → found ≡ Ok true }
    ensures no { found ≡ Ok true → result ≡ true }
{
    match found {
        Ok(found) => found,
        Err(_) => false,
    }
}

fn first_fault(failed: Option<Fault>, found: Result<bool, Fault>) -> Option<Fault>
    ensures { result ≡ fault_or failed (fault_in found) }
{
    match failed {
        Some(fault) => Some(fault),
        None => found.err(),
    }
}

fn outcome(failed: Option<Fault>) -> Result<bool, Fault>
    ensures { result ≡ search_outcome failed }
{
    match failed {
        Some(fault) => Err(fault),
        None => Ok(false),
    }
}

// Reads one ring, and says whether it gives the identity.
fn read_ring<B: Bank>(
    bank: &mut B,
    dev: u32,
    at: u64,
    pool: Guid,
    member: Guid,
    ring: &mut [u8],
) -> Result<bool, Fault>
    requires whole { length ring.old ≡ 131072 }
    requires inside { at + 32 ≤ (B.view bank.old).size dev }
    ensures { ReadsRing pool member dev at (B.view bank.old) (B.view bank.new) result }
{
    bank.read(dev, at, ring)?;
    Ok(has_identity(ring, pool, member))
}

fn has_identity(ring: &[u8], pool: Guid, member: Guid) -> bool
    requires { length ring.now ≡ 131072 }
    ensures yes { result ≡ true → HasIdentity pool member ring.now }
    ensures no { result ≡ false → ¬ (HasIdentity pool member ring.now) }
{
    for slot in 0..RING_BYTES / SECTOR_BYTES {
        let start = slot * SECTOR_BYTES;
        if names_member(&ring[start..start + SECTOR_BYTES], pool, member) {
            return true;
        }
    }
    false
}

fn names_member(sector: &[u8], pool: Guid, member: Guid) -> bool
    requires { length sector.now ≡ 4096 }
    ensures yes { result ≡ true → NamesMember pool member sector.now }
    ensures no { result ≡ false → ¬ (NamesMember pool member sector.now) }
{
    match read_uberblock(sector) {
        Some(u) => u.pool == pool && u.member == member,
        None => false,
    }
}
