//! The texts of replies.
ghost use Rattle.std.specs.Prelude.{◌≡◌, ℕ, ◌<◌, true, false, List, [], ◌∷◌, ◌++◌, map, decimal, codes, length, slice_index, IfOk, OnOk, IfNone, IfSome, if◌then◌else◌, ◌==◌};
ghost use Rattle.std.specs.List.{list_all};
ghost use Rattle.pool_wire.specs.Text.{exhausted_text, fault_text, label_text, leaf_text, limit_text, named_leaf_text, no_device_text, place_text, refusal_text, seen_text, small_text, state_text, suspended_text, text_of};
ghost use Rattle.pool_wire.specs.Words.{IsData, are_bytes, block_text, digits_text, is_zero, trimmed, with_commas};

use crate::logs::write_logs;
use crate::{NamedLeaf, Reply};
use mp_base::{Block, Group, Guid, LeafSeen, MemFault, PlaceRule, Refusal, Seen};
use std::alloc::Global;
use vdev_tree::State;

/// The text of the reply, without the byte 10 that ends it (docs/FORMATS.md, "Replies").
pub fn write_reply(alloc: Global, reply: &Reply) -> Result<Vec<u8>, MemFault>
    ensures { IfOk result (λ bytes. bytes.items ≡ text_of reply.now) }
{
    match reply {
        Reply::Done => Ok(Vec::from_slice(alloc, b"ok")?),
        Reply::Committed(group) => write_committed(alloc, *group),
        Reply::Data(block) => write_block(alloc, block),
        Reply::State(state) => write_state(alloc, *state),
        Reply::Logs(leaves) => write_logs(alloc, leaves.as_slice()),
        Reply::Refused(refusal) => write_refusal(alloc, refusal),
        Reply::Exhausted {
            level,
            index,
            leaves,
        } => {
            let leaves = write_named_leaves(alloc, leaves.as_slice())?;
            write_exhausted(alloc, *level, *index, &leaves)
        }
        Reply::DeviceFault { name } => write_fault(alloc, name.as_bytes()),
        Reply::WrongLabel { name } => write_wrong_label(alloc, name.as_bytes()),
        Reply::NoDevice { name } => write_no_device(alloc, name.as_bytes()),
    }
}

/// What a reply tells of a block, a line may ask to write: it is DATA of that same block.
pub fn told_block_is_data()
    ensures { (block : List ℕ) → length block ≡ 4096 → are_bytes block ≡ true → IsData (block_text block) block }
{}

fn write_committed(alloc: Global, group: Group) -> Result<Vec<u8>, MemFault>
    ensures { IfOk result (λ bytes. bytes.items ≡ codes "ok " ++ decimal group.0) }
{
    let number = group.0;
    Ok(format!(in alloc; "ok {number}")?.into_bytes())
}

fn write_state(alloc: Global, state: State) -> Result<Vec<u8>, MemFault>
    ensures { IfOk result (λ bytes. bytes.items ≡ codes "ok " ++ state_text state) }
{
    let mut text = Vec::from_slice(alloc, b"ok ")?;
    text.extend_from_slice(state_word(state))?;
    Ok(text)
}

fn state_word(state: State) -> &'static [u8]
    ensures { result.now ≡ state_text state }
{
    match state {
        State::Online => b"ONLINE",
        State::Degraded => b"DEGRADED",
        State::Faulted => b"FAULTED",
        State::Offline => b"OFFLINE",
        State::Removed => b"REMOVED",
        State::Unavail => b"UNAVAIL",
    }
}

/// The block in hexadecimal digits without the zero bytes at its end, `-` where it has none but zeros.
fn write_block(alloc: Global, block: &Block) -> Result<Vec<u8>, MemFault>
    ensures { IfOk result (λ bytes. bytes.items ≡ codes "ok " ++ block_text block.now) }
{
    write_digits(alloc, trimmed(block.as_bytes()))
}

fn write_digits(alloc: Global, bytes: &[u8]) -> Result<Vec<u8>, MemFault>
    ensures { IfOk result (λ text. text.items ≡ codes "ok " ++ digits_text bytes.now) }
{
    if bytes.is_empty() {
        return Ok(Vec::from_slice(alloc, b"ok -")?);
    }
    let digits = hex::encode(alloc, bytes)?;
    Ok(format!(in alloc; "ok {digits}")?.into_bytes())
}

/// The bytes without the zeros at their end.
fn trimmed(bytes: &[u8]) -> &[u8]
    ensures { result.now ≡ trimmed bytes.now }
{
    match last_byte(bytes) {
        Some(last) => &bytes[..last + 1],
        None => &bytes[..0],
    }
}

/// The place of the last byte that isn't 0.
fn last_byte(bytes: &[u8]) -> Option<usize>
    ensures none { IfNone result ((k : ℕ) → k < length bytes.now → is_zero (slice_index bytes.now k) ≡ true) }
    ensures within { IfSome result (λ at. at < length bytes.now) }
    ensures some { IfSome result (λ at. is_zero (slice_index bytes.now at) ≡ false) }
    ensures behind { IfSome result (λ at. (k : ℕ) → at < k → k < length bytes.now → is_zero (slice_index bytes.now k) ≡ true) }
{
    bytes.iter().rposition(|b| *b != 0)
}

fn write_refusal(alloc: Global, refusal: &Refusal) -> Result<Vec<u8>, MemFault>
    ensures { IfOk result (λ bytes. bytes.items ≡ refusal_text refusal.now) }
{
    match refusal {
        Refusal::NoPool => Ok(Vec::from_slice(alloc, b"no 2 pool")?),
        Refusal::BadAddress { limit } => Ok(format!(in alloc;
            "no 3 address {limit}"
        )?.into_bytes()),
        Refusal::NoVdev => Ok(Vec::from_slice(alloc, b"no 6 vdev")?),
        Refusal::WrongPlace { rule } => Ok(Vec::from_slice(alloc, place_text(*rule))?),
        Refusal::Required { group } => write_required(alloc, *group),
        Refusal::TooSmall { need, has } => write_too_small(alloc, *need, *has),
        Refusal::Exhausted {
            level,
            index,
            leaves,
        } => {
            let leaves = write_leaves(alloc, leaves.as_slice())?;
            write_exhausted(alloc, *level, *index, &leaves)
        }
        Refusal::Suspended { group, top, faults } => write_suspended(alloc, *group, *top, *faults),
        Refusal::DeviceFault { member } => write_member_fault(alloc, *member),
        Refusal::WrongLabel { member } => write_member_label(alloc, *member),
        Refusal::Memory => Ok(Vec::from_slice(alloc, b"no 19 memory")?),
        Refusal::NoRecord => Ok(Vec::from_slice(alloc, b"no 21 norecord")?),
        Refusal::TreeFull { limit, count } => write_limit(alloc, *limit, *count),
        Refusal::NotBuilt => Ok(Vec::from_slice(alloc, b"no 40 notbuilt")?),
    }
}

fn place_text(rule: PlaceRule) -> &'static [u8]
    ensures { result.now ≡ place_text rule }
{
    match rule {
        PlaceRule::Role => b"no 7 place role",
        PlaceRule::Spare => b"no 7 place spare",
        PlaceRule::Twice => b"no 7 place twice",
        PlaceRule::NotSpare => b"no 7 place notspare",
    }
}

fn write_required(alloc: Global, group: Group) -> Result<Vec<u8>, MemFault>
    ensures { IfOk result (λ bytes. bytes.items ≡ codes "no 8 required " ++ decimal group.0) }
{
    let group = group.0;
    Ok(format!(in alloc; "no 8 required {group}")?.into_bytes())
}

fn write_too_small(alloc: Global, need: u64, has: u64) -> Result<Vec<u8>, MemFault>
    ensures { IfOk result (λ bytes. bytes.items ≡ small_text need has) }
{
    Ok(format!(in alloc; "no 10 small {need} {has}")?.into_bytes())
}

fn write_suspended(alloc: Global, group: Group, top: Guid, faults: u64) -> Result<Vec<u8>, MemFault>
    ensures { IfOk result (λ bytes. bytes.items ≡ suspended_text group.0 top.0 faults) }
{
    let group = group.0;
    let top = top.0;
    Ok(format!(in alloc; "no 16 suspended {group} {top} {faults}")?.into_bytes())
}

/// The member's number stands where its device's name isn't known.
fn write_member_fault(alloc: Global, member: Guid) -> Result<Vec<u8>, MemFault>
    ensures { IfOk result (λ bytes. bytes.items ≡ fault_text (decimal member.0)) }
{
    let member = member.0;
    let name = format!(in alloc; "{member}")?;
    write_fault(alloc, name.as_bytes())
}

fn write_fault(alloc: Global, name: &[u8]) -> Result<Vec<u8>, MemFault>
    ensures { IfOk result (λ bytes. bytes.items ≡ fault_text name.now) }
{
    let mut text = Vec::from_slice(alloc, b"no 17 fault ")?;
    text.extend_from_slice(name)?;
    Ok(text)
}

/// The member's number stands where its device's name isn't known.
fn write_member_label(alloc: Global, member: Guid) -> Result<Vec<u8>, MemFault>
    ensures { IfOk result (λ bytes. bytes.items ≡ label_text (decimal member.0)) }
{
    let member = member.0;
    let name = format!(in alloc; "{member}")?;
    write_wrong_label(alloc, name.as_bytes())
}

fn write_wrong_label(alloc: Global, name: &[u8]) -> Result<Vec<u8>, MemFault>
    ensures { IfOk result (λ bytes. bytes.items ≡ label_text name.now) }
{
    let mut text = Vec::from_slice(alloc, b"no 18 label ")?;
    text.extend_from_slice(name)?;
    Ok(text)
}

fn write_no_device(alloc: Global, name: &[u8]) -> Result<Vec<u8>, MemFault>
    ensures { IfOk result (λ bytes. bytes.items ≡ no_device_text name.now) }
{
    let mut text = Vec::from_slice(alloc, b"no 26 nodevice ")?;
    text.extend_from_slice(name)?;
    Ok(text)
}

fn write_limit(alloc: Global, limit: u64, count: u64) -> Result<Vec<u8>, MemFault>
    ensures { IfOk result (λ bytes. bytes.items ≡ limit_text limit count) }
{
    Ok(format!(in alloc; "no 22 limit {limit} {count}")?.into_bytes())
}

fn write_exhausted(
    alloc: Global,
    level: u32,
    index: u64,
    leaves: &[u8],
) -> Result<Vec<u8>, MemFault>
    ensures { IfOk result (λ bytes. bytes.items ≡ exhausted_text level index leaves.now) }
{
    let mut text = format!(in alloc; "no 15 exhausted {level} {index} ")?.into_bytes();
    text.extend_from_slice(leaves)?;
    Ok(text)
}

fn write_named_leaves(alloc: Global, leaves: &[NamedLeaf]) -> Result<Vec<u8>, MemFault>
    ensures { IfOk result (λ bytes. bytes.items ≡ with_commas (map named_leaf_text leaves.now)) }
{
    let mut text = Vec::new(alloc);
    for (at, leaf) in leaves.iter().enumerate() {
        push_comma(&mut text, at)?;
        push_leaf(&mut text, leaf.name.as_bytes(), leaf.seen)?;
    }
    Ok(text)
}

/// The leaves by their member numbers.
fn write_leaves(alloc: Global, leaves: &[LeafSeen]) -> Result<Vec<u8>, MemFault>
    ensures { IfOk result (λ bytes. bytes.items ≡ with_commas (map leaf_text leaves.now)) }
{
    let mut text = Vec::new(alloc);
    for (at, leaf) in leaves.iter().enumerate() {
        push_comma(&mut text, at)?;
        let member = leaf.member.0;
        let name = format!(in alloc; "{member}")?;
        push_leaf(&mut text, name.as_bytes(), leaf.seen)?;
    }
    Ok(text)
}

/// Puts a comma before the leaf at this place, unless it is the first.
pub(crate) fn push_comma(text: &mut Vec<u8>, at: usize) -> Result<(), MemFault>
    ensures { OnOk result (text.new.items ≡ (if at == 0 then text.old.items else text.old.items ++ 44 ∷ [])) }
{
    if at > 0 {
        text.push(b',')?;
    }
    Ok(())
}

fn push_leaf(text: &mut Vec<u8>, name: &[u8], seen: Seen) -> Result<(), MemFault>
    ensures { OnOk result (text.new.items ≡ text.old.items ++ (name.now ++ (codes "=" ++ seen_text seen))) }
{
    text.extend_from_slice(name)?;
    text.push(b'=')?;
    text.extend_from_slice(seen_word(seen))?;
    Ok(())
}

fn seen_word(seen: Seen) -> &'static [u8]
    ensures { result.now ≡ seen_text seen }
{
    match seen {
        Seen::Unreadable => b"unreadable",
        Seen::Failed => b"failed",
        Seen::Mismatch => b"mismatch",
    }
}
