//! A sync: what was written goes to each leaf of the board, and is committed by a round once these are flushed.
ghost use Rattle.std.specs.Prelude.{◌≡◌, ℕ, ◌<◌, ◌^◌, List, map, length};
ghost use Rattle.bank_core.specs.Asks.{Flushes};
ghost use Rattle.std.specs.Prelude.{Some};
ghost use Rattle.bank_core.specs.Parts.{MakesPart};
ghost use Rattle.bank_core.specs.Story.{fault_in};
ghost use Rattle.pool_core.specs.Seating.{HasRoomFor};
ghost use Rattle.pool_core.specs.Syncing.{writes_to};

use crate::Pool;
use crate::board::Board;
use crate::commit::free_sector;
use crate::draft::Draft;
use crate::read::DATA_START;
use bank_core::{Bank, Fault};
use mp_base::{Group, Refusal};

/// No number from here on is drawn by a sync.
const LAST_NUMBER: u64 = (1 << 62) - 64;

impl Pool {
    ghost use Rattle.std.specs.List.{flat_map};
    ghost use Rattle.pool_core.specs.Done.{SyncsIf, no_leaf};
    ghost use Rattle.pool_core.specs.Keeping.{Represents, IsSeated, Stands};
    ghost use Rattle.pool_core.specs.Recorded.{addresses};
    ghost use Rattle.pool_core.specs.State.{PoolState, board, has_nobody, is_spent};
    ghost use Rattle.pool_core.specs.Syncing.{sync_plan, writes_at};

    /// Commits what was written, and answers the number of its group. At `Ok` each block is on every
    /// readable leaf, every other leaf owes the group, and each crash from then on leaves a device whose newest
    /// record commits it. At `Suspended` with faults a device call failed; the number is spent, and the pool is
    /// of no further use. At `Suspended` without faults no leaf is readable, at `TreeFull` the numbers are spent,
    /// at `Memory` there was none; then nothing has changed.
    pub fn sync<B: Bank>(&mut self, bank: &mut B) -> Result<Group, Refusal>
        requires seated { IsSeated (B.view bank.old).size self.old }
        ensures size { (d : ℕ) → (B.view bank.new).size d ≡ (B.view bank.old).size d }
        ensures numbers { (name : List ℕ) → (B.view bank.new).number_of name ≡ (B.view bank.old).number_of name }
        ensures lookups { (B.view bank.new).lookup_faults ≡ (B.view bank.old).lookup_faults }
        ensures seated { IsSeated (B.view bank.old).size self.new }
        ensures sync { (s : PoolState) → Represents self.old s → SyncsIf (is_spent s.number) (has_nobody s) (B.view bank.old).size s
            (B.view bank.old).told (B.view bank.new).told (B.view bank.old).faults (B.view bank.new).faults self.new result }
    {
        let number = self.number.0;
        if number >= LAST_NUMBER {
            return Err(Refusal::TreeFull {
                limit: LAST_NUMBER,
                count: number + 1,
            });
        }
        let board = self.pair.board();
        if board.as_slice().is_empty() {
            return Err(self.no_leaf());
        }
        let draft = match self.draft() {
            Ok(draft) => draft,
            Err(_) => return Err(Refusal::Memory),
        };
        let Draft { pair, outline } = draft;
        let written = self.write_out(bank, &board);
        self.commit(pair);
        self.end_commit(bank, &board, outline, written)
    }

    // The refusal where no leaf is readable: the group that would be drawn, and no fault.
    pub(crate) fn no_leaf(&self) -> Refusal
        requires { self.now.number.0 < 2 ^ 62 }
        ensures { (s : PoolState) → Represents self.now s → result ≡ no_leaf s }
    {
        Refusal::Suspended {
            group: Group(self.number.0 + 1),
            top: self.pair.mirror(),
            faults: 0,
        }
    }

    // Writes each block that was written to each leaf of the board, and then flushes each of them.
    fn write_out<B: Bank>(&self, bank: &mut B, members: &Board) -> Result<(), Fault>
        requires seated { IsSeated (B.view bank.old).size self.now }
        requires board { (s : PoolState) → Stands self.now.pair s → members.now ≡ board s }
        ensures size { (d : ℕ) → (B.view bank.new).size d ≡ (B.view bank.old).size d }
        ensures numbers { (name : List ℕ) → (B.view bank.new).number_of name ≡ (B.view bank.old).number_of name }
        ensures lookups { (B.view bank.new).lookup_faults ≡ (B.view bank.old).lookup_faults }
        ensures part { (s : PoolState) → Represents self.now s
            → MakesPart (sync_plan s) (B.view bank.old).told (B.view bank.new).told (B.view bank.old).faults (B.view bank.new).faults (fault_in result) }
    {
        self.write_blocks(bank, members)?;
        flush_all(bank, members)
    }

    fn write_blocks<B: Bank>(&self, bank: &mut B, members: &Board) -> Result<(), Fault>
        requires seated { IsSeated (B.view bank.old).size self.now }
        requires board { (s : PoolState) → Stands self.now.pair s → members.now ≡ board s }
        ensures size { (d : ℕ) → (B.view bank.new).size d ≡ (B.view bank.old).size d }
        ensures numbers { (name : List ℕ) → (B.view bank.new).number_of name ≡ (B.view bank.old).number_of name }
        ensures lookups { (B.view bank.new).lookup_faults ≡ (B.view bank.old).lookup_faults }
        ensures part { (s : PoolState) → Represents self.now s
            → MakesPart (flat_map (writes_at s) (addresses s.blocks)) (B.view bank.old).told (B.view bank.new).told (B.view bank.old).faults (B.view bank.new).faults (fault_in result) }
    {
        for at in 0..self.writes.len() {
            self.write_block(bank, members, at)?;
        }
        Ok(())
    }

    // Writes the block of one address to each leaf of the board, if one was written there.
    fn write_block<B: Bank>(&self, bank: &mut B, members: &Board, at: usize) -> Result<(), Fault>
        requires seated { IsSeated (B.view bank.old).size self.now }
        requires board { (s : PoolState) → Stands self.now.pair s → members.now ≡ board s }
        requires inside { at < length self.now.writes.items }
        ensures size { (d : ℕ) → (B.view bank.new).size d ≡ (B.view bank.old).size d }
        ensures numbers { (name : List ℕ) → (B.view bank.new).number_of name ≡ (B.view bank.old).number_of name }
        ensures lookups { (B.view bank.new).lookup_faults ≡ (B.view bank.old).lookup_faults }
        ensures part { (s : PoolState) → Represents self.now s
            → MakesPart (writes_at s at) (B.view bank.old).told (B.view bank.new).told (B.view bank.old).faults (B.view bank.new).faults (fault_in result) }
    {
        match self.write_at(at) {
            Some(block) => {
                let sector = DATA_START + free_sector(at, self.pointer_at(at));
                write_all(bank, members, sector, block)
            }
            None => Ok(()),
        }
    }
}

// Writes a block to this sector of each leaf of the board.
fn write_all<B: Bank>(bank: &mut B, members: &Board, sector: u64, block: &[u8]) -> Result<(), Fault>
    requires room { HasRoomFor (B.view bank.old).size members.now sector }
    requires whole { length block.now ≡ 4096 }
    ensures size { (d : ℕ) → (B.view bank.new).size d ≡ (B.view bank.old).size d }
    ensures numbers { (name : List ℕ) → (B.view bank.new).number_of name ≡ (B.view bank.old).number_of name }
    ensures lookups { (B.view bank.new).lookup_faults ≡ (B.view bank.old).lookup_faults }
    ensures part { MakesPart (writes_to members.now sector (Some block.now))
        (B.view bank.old).told (B.view bank.new).told (B.view bank.old).faults (B.view bank.new).faults (fault_in result) }
{
    for member in members.as_slice() {
        bank.write(member.dev, sector, block)?;
    }
    Ok(())
}

// Flushes each leaf of the board.
pub(crate) fn flush_all<B: Bank>(bank: &mut B, members: &Board) -> Result<(), Fault>
    requires room { HasRoomFor (B.view bank.old).size members.now 0 }
    ensures size { (d : ℕ) → (B.view bank.new).size d ≡ (B.view bank.old).size d }
    ensures numbers { (name : List ℕ) → (B.view bank.new).number_of name ≡ (B.view bank.old).number_of name }
    ensures lookups { (B.view bank.new).lookup_faults ≡ (B.view bank.old).lookup_faults }
    ensures part { MakesPart (map (λ m. Flushes m.dev) members.now)
        (B.view bank.old).told (B.view bank.new).told (B.view bank.old).faults (B.view bank.new).faults (fault_in result) }
{
    for member in members.as_slice() {
        bank.flush(member.dev)?;
    }
    Ok(())
}
