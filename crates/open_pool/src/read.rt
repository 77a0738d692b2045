//! Reads: a block as it was written last. What isn't committed stands in memory; a committed block is read from its copies on the
//! leaves of its top, and copies that gave wrong bytes are rewritten.
ghost use Rattle.std.specs.Prelude.{◌≡◌, ℕ, ◌<◌, ◌≤◌, length, AllPairs, Some, None, IfSome};
ghost use Rattle.std.specs.Option.{option_copied};
ghost use Rattle.block_map.specs.Map.{pointer_at};
ghost use Rattle.block_map.specs.Places.{AreTops, IsPlace};
ghost use Rattle.txg_history.specs.Records.{key};
ghost use Rattle.pool_moves.specs.ReadRow.{RowRead};
ghost use Rattle.pool_moves.specs.States.{PoolState};
ghost use Rattle.dtl_rules.specs.Widening.{leaves_of, sectors_of};
ghost use Rattle.open_pool.specs.Here.{AreHere};
ghost use Rattle.open_pool.specs.Parts.{all_parts};
ghost use Rattle.open_pool.specs.Reading.{answer_by, answered, ReadsAt};

use crate::Pool;
use crate::copies::{DATA_START, copies_of};
use crate::count::count_read;
use crate::pages::Shown;
use bank_core::Bank;
use mirror_io::{CopySeen, read_block};
use mp_base::{Key, Pointer};
use txg_engine::{Frozen, MOST_LEAVES};
use vdev_tree::Top;

/// Why no block is read.
#[derive(Drop)]
pub enum ReadFault {
    /// The address isn't below the volume's number of blocks.
    BadAddress { limit: u64 },
    /// No copy of the block is good: what those on the leaves of its top showed, in tree order. Nothing was written.
    Exhausted { shown: Shown },
}

impl Pool {
    ghost use Rattle.open_pool.specs.Answering.{Does};
    ghost use Rattle.open_pool.specs.Reading.{read_says, uncommitted};
    ghost use Rattle.open_pool.specs.State.{Stands};

    /// Reads a block: what was written last at the address, zeros where nothing was. A committed block has the sum of its pointer.
    /// A call that failed, and wrong bytes, are counted on the leaf. After an `Err` nothing is said of `out`.
    pub fn read<B: Bank>(
        &mut self,
        bank: &mut B,
        addr: u64,
        out: &mut [u8],
    ) -> Result<(), ReadFault>
        requires block { length out.old ≡ 4096 }
        requires here { AreHere (B.view bank.old).size self.old.tops }
        ensures row { (s : PoolState) → Stands self.old s
            → Does (RowRead s addr) read_says (answered out.new result) s self.new (B.view bank.old) (B.view bank.new) }
    {
        self.keeps_its_form();
        let limit = self.map.blocks();
        if addr >= limit {
            return Err(ReadFault::BadAddress { limit });
        }
        if let Some(block) = self.uncommitted(addr) {
            out.copy_from_slice(block);
            return Ok(());
        }
        let key = Key {
            level: 0,
            index: addr,
        };
        let Some(pointer) = self.map.get(key) else {
            out.fill(0);
            return Ok(());
        };
        self.read_copies(bank, addr, pointer, out)
    }

    // The open write of an address, else the frozen group's block.
    fn uncommitted(&self, addr: u64) -> Option<&[u8]>
        ensures block { option_copied result ≡ uncommitted self.now addr }
        ensures whole { IfSome (option_copied result) (λ block. length block ≡ 4096) }
    {
        self.open.keeps_its_form();
        if let Some(block) = self.open.block(addr) {
            return Some(block);
        }
        match &self.frozen {
            Some(frozen) => {
                frozen.keeps_its_form();
                frozen.block(addr)
            }
            None => None,
        }
    }

    // Reads the committed block of an address, which has this pointer.
    fn read_copies<B: Bank>(
        &mut self,
        bank: &mut B,
        addr: u64,
        pointer: Pointer,
        out: &mut [u8],
    ) -> Result<(), ReadFault>
        requires block { length out.old ≡ 4096 }
        requires here { AreHere (B.view bank.old).size self.old.tops }
        requires low { addr < self.old.map.blocks }
        requires unwritten { uncommitted self.old addr ≡ None }
        requires pointer { pointer ≡ pointer_at self.old.map (key 0 addr) }
        requires stored { 1 ≤ pointer.birth.0 }
        ensures row { (s : PoolState) → Stands self.old s
            → Does (RowRead s addr) read_says (answered out.new result) s self.new (B.view bank.old) (B.view bank.new) }
    {
        self.keeps_its_form();
        self.map.keeps_its_form();
        read_at(bank, &mut self.tops, &mut self.frozen, pointer, out)
    }
}

// Reads the block of a pointer from the copies on the leaves of its top, and counts what each showed.
fn read_at<B: Bank>(
    bank: &mut B,
    tops: &mut [Top],
    frozen: &mut Option<Frozen>,
    pointer: Pointer,
    out: &mut [u8],
) -> Result<(), ReadFault>
    requires block { length out.old ≡ 4096 }
    requires sizes { AreTops (sectors_of tops.old) }
    requires place { IsPlace (sectors_of tops.old) pointer.place }
    requires few { length (leaves_of tops.old) ≤ 32 }
    requires apart { AllPairs (λ a b. (d : ℕ) → a.dev ≡ Some d → b.dev ≡ Some d → ⊥) (leaves_of tops.old) }
    requires here { AreHere (B.view bank.old).size (all_parts tops.old) }
    ensures read { ReadsAt pointer (all_parts tops.old) (all_parts tops.new) frozen.old frozen.new (answered out.new result)
        (B.view bank.old) (B.view bank.new) }
    ensures long { length tops.new ≡ length tops.old }
{
    let place = pointer.place.top as usize;
    let copies = copies_of(&tops[place], pointer.birth);
    let copies = copies.as_slice();
    let at = DATA_START + pointer.place.sector;
    let mut list = [CopySeen::NotTried; MOST_LEAVES];
    let len = copies.len();
    let served = read_block(bank, copies, at, &pointer.sum, out, &mut list[..len]).is_ok();
    let shown = Shown::new(list, len);
    count_read(tops, place, frozen, copies, shown.as_slice(), served);
    answer_by(served, shown)
}

fn answer_by(served: bool, shown: Shown) -> Result<(), ReadFault>
    ensures { result ≡ answer_by served shown }
{
    if served {
        return Ok(());
    }
    Err(ReadFault::Exhausted { shown })
}
