//! The open group: what was written since the last freeze.
ghost use Rattle.std.specs.Prelude.{◌≡◌, ℕ, ◌+◌, ◌<◌, ◌≤◌, ◌==◌, true, false, [], length, All, Some, IfOk, OnOk, OnErr, if◌then◌else◌};
ghost use Rattle.std.specs.Option.{option_copied};
ghost use Rattle.std.specs.Vec.{vec_capacity};
ghost use Rattle.txg_engine.specs.Writes.{block_at, is_written, IsFound, IsOpen, RiseFrom};

use crate::write::Write;
use mp_base::{Block, MemFault};
use std::alloc::Global;
use std::marker::Model;

/// The most addresses that the open group and the frozen one have together.
pub const MOST_WRITES: usize = 4096;

/// The writes of a group, one for each address, by rising addresses. A new one has room for 4,096 of them.
#[derive(Drop)]
pub struct Open {
    pub(crate) writes: Vec<Write>,
}

impl Model for Open {
    ghost use Rattle.std.specs.Vec.{vec_capacity};
    ghost use Rattle.txg_engine.specs.Writes.{OpenGroup, IsOpen};

    ghost Value = { OpenGroup };

    ghost view = { λ group. record { writes = group.writes.items; room = vec_capacity group.writes } };

    ghost invariant = { λ group. IsOpen (record { writes = group.writes.items; room = vec_capacity group.writes }) };
}

impl Open {
    /// No write.
    pub fn new(alloc: Global) -> Result<Open, MemFault>
        ensures none { IfOk result (λ group. group.writes ≡ []) }
        ensures room { IfOk result (λ group. 4096 ≤ group.room) }
    {
        Ok(Open {
            writes: Vec::with_capacity(alloc, MOST_WRITES)?,
        })
    }

    /// What holds of each open group, whatever was done with it. It computes nothing: its clause is the law.
    pub fn keeps_its_form(&self)
        ensures { IsOpen self.now }
    {
        let _ = &self.writes;
    }

    /// How many addresses were written.
    pub fn len(&self) -> usize
        ensures { result ≡ length self.now.writes }
    {
        self.writes.len()
    }

    pub fn is_empty(&self) -> bool
        ensures { result ≡ (length self.now.writes == 0) }
    {
        self.writes.is_empty()
    }

    /// Whether the address was written.
    pub fn has(&self, addr: u64) -> bool
        ensures { result ≡ is_written self.now.writes addr }
    {
        find(&self.writes, addr).is_ok()
    }

    /// What was written last at an address.
    pub fn block(&self, addr: u64) -> Option<&[u8]>
        ensures { option_copied result ≡ block_at self.now.writes addr }
    {
        match find(&self.writes, addr) {
            Ok(at) => Some(self.writes[at].block.as_bytes()),
            Err(_) => None,
        }
    }

    /// Takes a write of 4,096 bytes. A later one at the same address takes its place. The block's own memory is all
    /// that it takes.
    pub fn put(&mut self, addr: u64, block: &[u8]) -> Result<(), MemFault>
        requires block { length block.now ≡ 4096 }
        requires room { is_written self.old.writes addr ≡ false → length self.old.writes < self.old.room }
        ensures ok { OnOk result ((a : ℕ) → block_at self.new.writes a ≡ (if addr == a then Some block.now
            else block_at self.old.writes a)) }
        ensures count { OnOk result (length self.new.writes ≡ (if is_written self.old.writes addr
            then length self.old.writes else length self.old.writes + 1)) }
        ensures room { self.old.room ≤ self.new.room }
        ensures err { OnErr result (self.new ≡ self.old) }
    {
        let block = Block::from_slice(*self.writes.allocator(), block)?;
        put_write(&mut self.writes, addr, block);
        Ok(())
    }
}

// Takes a write, which takes the place of an earlier one at its address.
fn put_write(writes: &mut Vec<Write>, addr: u64, block: Block)
    requires rise { RiseFrom 0 writes.old.items }
    requires block { length block ≡ 4096 }
    requires long { All (λ write. length write.block ≡ 4096) writes.old.items }
    requires room { is_written writes.old.items addr ≡ false → length writes.old.items < vec_capacity writes.old }
    ensures rise { RiseFrom 0 writes.new.items }
    ensures long { All (λ write. length write.block ≡ 4096) writes.new.items }
    ensures blocks { (a : ℕ) → block_at writes.new.items a ≡ (if addr == a then Some block
        else block_at writes.old.items a) }
    ensures count { length writes.new.items ≡ (if is_written writes.old.items addr
        then length writes.old.items else length writes.old.items + 1) }
    ensures room { vec_capacity writes.old ≤ vec_capacity writes.new }
{
    match find(writes, addr) {
        Ok(at) => writes[at].block = block,
        Err(at) => {
            let _ = writes.insert(at, Write { addr, block });
        }
    }
}

// Where the write of an address is, or where it belongs.
pub(crate) fn find(writes: &[Write], addr: u64) -> Result<usize, usize>
    requires { RiseFrom 0 writes.now }
    ensures { IsFound writes.now addr result }
{
    writes.binary_search_by_key(&addr, |write| write.addr)
}
