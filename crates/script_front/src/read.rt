//! The line `read`.
ghost use Rattle.std.specs.Prelude.{◌≡◌, length, IfOk};
ghost use Rattle.host_core.specs.Standing.{IsSeated};
ghost use Rattle.host_core.specs.Telling.{with_bytes};
ghost use Rattle.pool_runs.specs.Lines.{Asks_read};
ghost use Rattle.script_front.specs.Answering.{MayAnswer};
ghost use Rattle.script_front.specs.Converting.{read_reply, shown_leaves};

use crate::replies::seen_as;
use bank_core::Bank;
use host_core::{Host, Refused};
use mirror_io::CopySeen;
use mp_base::{BLOCK_BYTES, Block, MemFault, Name};
use open_pool::ReadFault;
use pool_lines::{NamedLeaf, NamedLeaves, Refusal, Reply};
use std::alloc::Global;

// Reads a block. Memory for the block and for the names of its leaves comes first, so that want of it makes no device call; at
// Err there was none to tell what the leaves showed.
pub(crate) fn read<B: Bank>(
    alloc: Global,
    host: &mut Host,
    bank: &mut B,
    pool: &Name,
    address: u64,
) -> Result<Reply, MemFault>
    requires seated { IsSeated host.old (B.view bank.old) }
    ensures { MayAnswer (Asks_read pool.now address) host.old host.new (B.view bank.old) (B.view bank.new) result }
{
    let names = match host.names_of_block(pool, address) {
        Ok(names) => names,
        Err(MemFault) => return Ok(Reply::Refused(Refusal::Memory)),
    };
    let mut out = match zeros(alloc) {
        Ok(out) => out,
        Err(MemFault) => return Ok(Reply::Refused(Refusal::Memory)),
    };
    let answer = host.read(bank, pool, address, &mut out);
    read_reply(alloc, address, &names, out, answer)
}

fn zeros(alloc: Global) -> Result<Vec<u8>, MemFault>
    ensures { IfOk result (λ bytes. length bytes.items ≡ 4096) }
{
    Ok(vec![in alloc; 0; BLOCK_BYTES]?)
}

fn read_reply(
    alloc: Global,
    address: u64,
    names: &[Name],
    out: Vec<u8>,
    answer: Result<(), Refused<ReadFault>>,
) -> Result<Reply, MemFault>
    requires { length out.items ≡ 4096 }
    ensures { IfOk result (λ reply. reply ≡ read_reply address names.now (with_bytes out.items answer)) }
{
    match answer {
        Ok(()) => Ok(Reply::Data(Block::new(out))),
        Err(Refused::NoPool) => Ok(Reply::Refused(Refusal::NoPool)),
        Err(Refused::Pool(ReadFault::BadAddress { limit })) => {
            Ok(Reply::Refused(Refusal::BadAddress { limit }))
        }
        Err(Refused::Pool(ReadFault::Exhausted { shown })) => {
            Ok(Reply::Refused(Refusal::Exhausted {
                level: 0,
                index: address,
                leaves: shown_leaves(alloc, names, shown.as_slice())?,
            }))
        }
    }
}

// Leaf by leaf its name and what it showed.
fn shown_leaves(alloc: Global, names: &[Name], shown: &[CopySeen]) -> Result<NamedLeaves, MemFault>
    ensures { IfOk result (λ leaves. leaves ≡ shown_leaves names.now shown.now) }
{
    let mut leaves = NamedLeaves::new(alloc);
    for (name, copy) in names.iter().zip(shown) {
        leaves.push(NamedLeaf {
            name: name.copy(alloc)?,
            seen: seen_as(*copy),
        })?;
    }
    Ok(leaves)
}
