//! A read of a pool, as a reply.
ghost use Rattle.std.specs.Prelude.{◌≡◌, ℕ, List, length, IfOk};
ghost use Rattle.pool_core.specs.Keeping.{Represents, IsSeated};
ghost use Rattle.pool_core.specs.State.{PoolState, leaves};
ghost use Rattle.host_machine.specs.Machine.{named};
ghost use Rattle.host_front.specs.Replying.{IsReadRefused, Replies};

use bank_core::Bank;
use mp_base::{BLOCK_BYTES, Block, MemFault, Refusal, SeenLeaves};
use pool_core::Pool;
use pool_wire::{NamedLeaf, NamedLeaves, Reply};
use std::alloc::Global;

// Reads a block of the pool. The buffer comes first, so that want of memory makes no device call.
pub(crate) fn read_from<B: Bank>(alloc: Global, pool: &Pool, bank: &mut B, address: u64) -> Reply
    requires seated { IsSeated (B.view bank.old).size pool.now }
    ensures size { (d : ℕ) → (B.view bank.new).size d ≡ (B.view bank.old).size d }
    ensures numbers { (name : List ℕ) → (B.view bank.new).number_of name ≡ (B.view bank.old).number_of name }
    ensures lookups { (B.view bank.new).lookup_faults ≡ (B.view bank.old).lookup_faults }
    ensures replies { (s : PoolState) → Represents pool.now s
        → Replies s address (B.view bank.old).told (B.view bank.new).told (B.view bank.old).faults (B.view bank.new).faults result }
{
    let mut out = match zeros(alloc) {
        Ok(out) => out,
        Err(MemFault) => return Reply::Refused(Refusal::Memory),
    };
    match pool.read(bank, address, &mut out) {
        Ok(()) => Reply::Data(Block::new(out)),
        Err(refusal) => read_refused(alloc, pool, refusal),
    }
}

fn zeros(alloc: Global) -> Result<Vec<u8>, MemFault>
    ensures { IfOk result (λ bytes. length bytes.items ≡ 4096) }
{
    Ok(vec![in alloc; 0; BLOCK_BYTES]?)
}

// The reply to a refused read, which names the leaves.
fn read_refused(alloc: Global, pool: &Pool, refusal: Refusal) -> Reply
    ensures { (s : PoolState) → Represents pool.now s → IsReadRefused (leaves s) refusal result }
{
    match refusal {
        Refusal::Exhausted {
            level,
            index,
            leaves,
        } => match name_leaves(alloc, pool, &leaves) {
            Ok(leaves) => Reply::Exhausted {
                level,
                index,
                leaves,
            },
            Err(MemFault) => Reply::Refused(Refusal::Memory),
        },
        refusal => Reply::Refused(refusal),
    }
}

fn name_leaves(alloc: Global, pool: &Pool, seen: &SeenLeaves) -> Result<NamedLeaves, MemFault>
    ensures { (s : PoolState) → Represents pool.now s → IfOk result (λ found. found ≡ named (leaves s) seen.now) }
{
    let mut named = NamedLeaves::new(alloc);
    for shown in seen.as_slice() {
        if let Some(name) = pool.leaf_name(shown.member) {
            named.push(NamedLeaf {
                name: name.copy(alloc)?,
                seen: shown.seen,
            })?;
        }
    }
    Ok(named)
}
