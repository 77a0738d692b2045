//! The next record: the pointers in memory become those of the blocks that were written.
ghost use Rattle.std.specs.Prelude.{◌≡◌, ◌/◌, ◌<◌, ◌^◌, length};
ghost use Rattle.pool_core.specs.Committing.{free_sector};

use crate::Pool;
use crate::pair::Pair;
use config_codec::Pointer;
use sha2::{Digest, Sha256};

impl Pool {
    ghost use Rattle.pool_core.specs.Committing.{IsNext, CommitsAt};
    ghost use Rattle.pool_core.specs.Drafts.{DrawsTo};
    ghost use Rattle.pool_core.specs.Keeping.{Represents, Stands};
    ghost use Rattle.pool_core.specs.Logs.{drawn};
    ghost use Rattle.pool_core.specs.State.{PoolState};
    ghost use Rattle.pool_core.specs.Syncing.{synced};

    // Draws the next number, whose tree this is.
    pub(crate) fn draw_number(&mut self, pair: Pair)
        requires number { self.old.number.0 < 2 ^ 62 }
        requires pair { DrawsTo self.old pair }
        ensures pair { self.new.pair ≡ pair }
        ensures drawn { (s : PoolState) → Represents self.old s → Represents self.new (drawn s) }
    {
        self.number.0 += 1;
        self.pair = pair;
    }

    // Draws the next number, and makes what was written the committed blocks of the record.
    pub(crate) fn commit(&mut self, pair: Pair)
        requires number { self.old.number.0 < 2 ^ 62 }
        requires pair { DrawsTo self.old pair }
        ensures pair { self.new.pair ≡ pair }
        ensures committed { (s : PoolState) → Represents self.old s → Represents self.new (synced s) }
    {
        self.draw_number(pair);
        self.commit_all();
    }

    fn commit_all(&mut self)
        ensures pair { self.new.pair ≡ self.old.pair }
        ensures committed { (s : PoolState) → Represents self.old (drawn s) → Represents self.new (synced s) }
    {
        for at in 0..self.writes.len() {
            self.commit_at(at);
        }
    }

    fn commit_at(&mut self, at: usize)
        requires { at < length self.old.writes.items }
        ensures { CommitsAt self.old at self.new }
    {
        let next = self.next_pointer(at);
        self.pointers[at] = next;
        self.writes[at] = None;
    }

    // The pointer of what was written, else the one that is there.
    fn next_pointer(&self, at: usize) -> Option<Pointer>
        requires { at < length self.now.writes.items }
        ensures { IsNext self.now at result }
    {
        let pointer = self.pointer_at(at);
        match self.write_at(at) {
            Some(block) => Some(Pointer {
                birth: self.number,
                sector: free_sector(at, pointer),
                sum: Sha256::digest(block),
            }),
            None => pointer,
        }
    }
}

// The data sector of an address that its committed block isn't on.
pub(crate) fn free_sector(address: usize, pointer: Option<Pointer>) -> u64
    requires { address < 32 }
    ensures is { result ≡ free_sector address pointer }
    ensures home { result / 2 ≡ address }
{
    let even = 2 * address as u64;
    match pointer {
        Some(pointer) if pointer.sector == even => even + 1,
        _ => even,
    }
}
