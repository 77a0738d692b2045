//! Reads. The copies of a block are tried in tree order, those of leaves that owe it last, and the first whose sum
//! is the pointer's answers; so bytes that a device made up are never handed out.
ghost use Rattle.std.specs.Prelude.{◌≡◌, ℕ, ◌<◌, ◌≤◌, List, length};
ghost use Rattle.pool_core.specs.Copies.{TriesCopy};
ghost use Rattle.pool_core.specs.Seating.{HasRoomFor};
ghost use Rattle.pool_core.specs.Tries.{TriesAll, seen_in};

use crate::Pool;
use bank_core::Bank;
use config_codec::Pointer;
use label_store::Member;
use mp_base::{Guid, LeafSeen, Refusal, Seen, SeenLeaves};
use sha2::{Digest, Sha256};

/// The device sector at which the data sectors begin, behind the first two labels.
pub(crate) const DATA_START: u64 = 128;

impl Pool {
    ghost use Rattle.std.specs.Prelude.{None};
    ghost use Rattle.pool_core.specs.State.{PoolState};
    ghost use Rattle.pool_core.specs.Keeping.{Represents, IsSeated};
    ghost use Rattle.pool_core.specs.Reading.{answered};
    ghost use Rattle.pool_core.specs.Done.{Reads};
    ghost use Rattle.pool_core.specs.State.{leaves};
    ghost use Rattle.pool_core.specs.Tries.{TriesCopies, shown_in};

    /// Reads the block at an address: what was written since the last commit, else what is committed,
    /// else zeros. After an `Err` nothing is said of `out`.
    pub fn read<B: Bank>(&self, bank: &mut B, address: u64, out: &mut [u8]) -> Result<(), Refusal>
        requires block { length out.old ≡ 4096 }
        requires seated { IsSeated (B.view bank.old).size self.now }
        ensures size { (d : ℕ) → (B.view bank.new).size d ≡ (B.view bank.old).size d }
        ensures numbers { (name : List ℕ) → (B.view bank.new).number_of name ≡ (B.view bank.old).number_of name }
        ensures lookups { (B.view bank.new).lookup_faults ≡ (B.view bank.old).lookup_faults }
        ensures read { (s : PoolState) → Represents self.now s
            → Reads s address (B.view bank.old).told (B.view bank.new).told (B.view bank.old).faults (B.view bank.new).faults (answered out.new result) }
    {
        let blocks = self.blocks;
        if address >= blocks {
            return Err(Refusal::BadAddress { limit: blocks });
        }
        match self.write_at(address as usize) {
            Some(block) => {
                out.copy_from_slice(block);
                Ok(())
            }
            None => self.read_committed(bank, address, out),
        }
    }

    // Reads the committed block of an address.
    fn read_committed<B: Bank>(
        &self,
        bank: &mut B,
        address: u64,
        out: &mut [u8],
    ) -> Result<(), Refusal>
        requires block { length out.old ≡ 4096 }
        requires seated { IsSeated (B.view bank.old).size self.now }
        requires inside { address < length self.now.writes.items }
        ensures size { (d : ℕ) → (B.view bank.new).size d ≡ (B.view bank.old).size d }
        ensures numbers { (name : List ℕ) → (B.view bank.new).number_of name ≡ (B.view bank.old).number_of name }
        ensures lookups { (B.view bank.new).lookup_faults ≡ (B.view bank.old).lookup_faults }
        ensures read { (s : PoolState) → Represents self.now s → s.writes address ≡ None
            → Reads s address (B.view bank.old).told (B.view bank.new).told (B.view bank.old).faults (B.view bank.new).faults (answered out.new result) }
    {
        match self.pointer_at(address as usize) {
            None => {
                out.fill(0);
                Ok(())
            }
            Some(pointer) => match self.read_copies(bank, &pointer, out) {
                Ok(()) => Ok(()),
                Err(leaves) => Err(Refusal::Exhausted {
                    level: 0,
                    index: address,
                    leaves,
                }),
            },
        }
    }

    // Tries the copies, those of leaves that don't owe the block first. Where none serves, it says what each leaf
    // showed, in tree order.
    fn read_copies<B: Bank>(
        &self,
        bank: &mut B,
        pointer: &Pointer,
        out: &mut [u8],
    ) -> Result<(), SeenLeaves>
        requires block { length out.old ≡ 4096 }
        requires seated { IsSeated (B.view bank.old).size self.now }
        requires inside { pointer.now.sector < 64 }
        ensures size { (d : ℕ) → (B.view bank.new).size d ≡ (B.view bank.old).size d }
        ensures numbers { (name : List ℕ) → (B.view bank.new).number_of name ≡ (B.view bank.old).number_of name }
        ensures lookups { (B.view bank.new).lookup_faults ≡ (B.view bank.old).lookup_faults }
        ensures tries { (s : PoolState) → Represents self.now s
            → TriesCopies s pointer.now (B.view bank.old).told (B.view bank.new).told (B.view bank.old).faults (B.view bank.new).faults out.new result }
    {
        let tries = self.pair.tries(pointer.birth);
        let sector = DATA_START + pointer.sector;
        match try_all(bank, tries.as_slice(), sector, &pointer.sum, out) {
            Ok(()) => Ok(()),
            Err(seen) => Err(self.shown(&seen)),
        }
    }

    // What each leaf showed, in tree order, by what those that were tried showed.
    fn shown(&self, seen: &SeenLeaves) -> SeenLeaves
        ensures { (s : PoolState) → Represents self.now s → result ≡ shown_in seen.now (leaves s) }
    {
        let mut leaves = SeenLeaves::new();
        leaves.push(seen_at(self.pair.first().guid, seen));
        leaves.push(seen_at(self.pair.second().guid, seen));
        leaves
    }
}

// What this leaf showed; one that wasn't tried isn't readable.
fn seen_at(member: Guid, seen: &SeenLeaves) -> LeafSeen
    ensures member { result.member ≡ member }
    ensures seen { result.seen ≡ seen_in seen.now member }
{
    for leaf in seen.as_slice() {
        if leaf.member.0 == member.0 {
            return *leaf;
        }
    }
    LeafSeen {
        member,
        seen: Seen::Unreadable,
    }
}

// Tries these members' copies in order, up to the first that serves. Where none does, it says what each showed.
fn try_all<B: Bank>(
    bank: &mut B,
    members: &[Member],
    at: u64,
    sum: &[u8; 32],
    out: &mut [u8],
) -> Result<(), SeenLeaves>
    requires block { length out.old ≡ 4096 }
    requires few { length members.now ≤ 32 }
    requires room { HasRoomFor (B.view bank.old).size members.now at }
    ensures size { (d : ℕ) → (B.view bank.new).size d ≡ (B.view bank.old).size d }
    ensures numbers { (name : List ℕ) → (B.view bank.new).number_of name ≡ (B.view bank.old).number_of name }
    ensures lookups { (B.view bank.new).lookup_faults ≡ (B.view bank.old).lookup_faults }
    ensures tries { TriesAll at sum.now members.now (B.view bank.old).told (B.view bank.new).told (B.view bank.old).faults (B.view bank.new).faults out.new result }
{
    let mut seen = SeenLeaves::new();
    for member in members {
        match read_copy(bank, member.dev, at, sum, out) {
            Ok(()) => return Ok(()),
            Err(showed) => seen.push(LeafSeen {
                member: member.guid,
                seen: showed,
            }),
        }
    }
    Err(seen)
}

// Reads one copy of a block, and says whether it has the block's sum.
fn read_copy<B: Bank>(
    bank: &mut B,
    dev: u32,
    at: u64,
    sum: &[u8; 32],
    out: &mut [u8],
) -> Result<(), Seen>
    requires block { length out.old ≡ 4096 }
    requires inside { at < (B.view bank.old).size dev }
    ensures size { (d : ℕ) → (B.view bank.new).size d ≡ (B.view bank.old).size d }
    ensures numbers { (name : List ℕ) → (B.view bank.new).number_of name ≡ (B.view bank.old).number_of name }
    ensures lookups { (B.view bank.new).lookup_faults ≡ (B.view bank.old).lookup_faults }
    ensures copy { TriesCopy dev at sum.now (B.view bank.old).told (B.view bank.new).told (B.view bank.old).faults (B.view bank.new).faults out.new result }
{
    if bank.read(dev, at, out).is_err() {
        return Err(Seen::Failed);
    }
    if Sha256::digest(&*out) != *sum {
        return Err(Seen::Mismatch);
    }
    Ok(())
}
