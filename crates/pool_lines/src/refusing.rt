//! The texts of refusals.
ghost use Rattle.std.specs.Prelude.{◌≡◌, ◌++◌, map, codes, IfOk, OnOk};
ghost use Rattle.pool_lines.specs.Text.{exhausted_text, holder_text, named_leaf_text, refusal_text, rule_text, seen_text, three_numbers, two_numbers};
ghost use Rattle.pool_lines.specs.Words.{with_commas};

use crate::text::{push_comma, text_with, with_number};
use crate::{Holder, NamedLeaf, Refusal};
use mp_base::{Group, Guid, MemFault, PlaceRule, Seen};
use std::alloc::Global;

pub(crate) fn write_refusal(alloc: Global, refusal: &Refusal) -> Result<Vec<u8>, MemFault>
    ensures { IfOk result (λ bytes. bytes.items ≡ refusal_text refusal.now) }
{
    match refusal {
        Refusal::NoPool => text_with(alloc, b"no 2 ", b"pool"),
        Refusal::BadAddress { limit } => with_number(alloc, b"no 3 address ", *limit),
        Refusal::NoSpace { need, free } => with_two(alloc, b"no 4 space ", *need, *free),
        Refusal::GroupFull => text_with(alloc, b"no 5 ", b"full"),
        Refusal::NoVdev => text_with(alloc, b"no 6 ", b"vdev"),
        Refusal::WrongPlace { rule } => text_with(alloc, b"no 7 place ", rule_word(*rule)),
        Refusal::Required { group } => with_number(alloc, b"no 8 required ", group.0),
        Refusal::DeviceInUse { by } => text_with(alloc, b"no 9 inuse ", holder_word(by)),
        Refusal::TooSmall { need, has } => with_two(alloc, b"no 10 small ", *need, *has),
        Refusal::Exhausted {
            level,
            index,
            leaves,
        } => write_exhausted(alloc, *level, *index, leaves.as_slice()),
        Refusal::Suspended { group, top, faults } => write_suspended(alloc, *group, *top, *faults),
        Refusal::DeviceFault { device } => text_with(alloc, b"no 17 fault ", device.as_bytes()),
        Refusal::WrongLabel { device } => text_with(alloc, b"no 18 label ", device.as_bytes()),
        Refusal::Memory => text_with(alloc, b"no 19 ", b"memory"),
        Refusal::GroupInFlight { group } => with_number(alloc, b"no 20 inflight ", group.0),
        Refusal::NoRecord => text_with(alloc, b"no 21 ", b"norecord"),
        Refusal::TreeFull { limit, count } => with_two(alloc, b"no 22 limit ", *limit, *count),
        Refusal::NameTaken => text_with(alloc, b"no 25 ", b"taken"),
        Refusal::NoDevice { device } => text_with(alloc, b"no 26 nodevice ", device.as_bytes()),
        Refusal::NotBuilt => text_with(alloc, b"no 40 ", b"notbuilt"),
    }
}

/// A text and two numbers.
fn with_two(alloc: Global, front: &[u8], one: u64, two: u64) -> Result<Vec<u8>, MemFault>
    ensures { IfOk result (λ bytes. bytes.items ≡ front.now ++ two_numbers one two) }
{
    let numbers = format!(in alloc; "{one} {two}")?;
    text_with(alloc, front, numbers.as_bytes())
}

fn rule_word(rule: PlaceRule) -> &'static [u8]
    ensures { result.now ≡ rule_text rule }
{
    match rule {
        PlaceRule::Role => b"role",
        PlaceRule::Spare => b"spare",
        PlaceRule::Twice => b"twice",
        PlaceRule::NotSpare => b"notspare",
    }
}

fn holder_word(holder: &Holder) -> &[u8]
    ensures { result.now ≡ holder_text holder.now }
{
    match holder {
        Holder::SpareDevice => b"spare",
        Holder::Pool(name) => name.as_bytes(),
    }
}

fn write_suspended(alloc: Global, group: Group, top: Guid, faults: u64) -> Result<Vec<u8>, MemFault>
    ensures { IfOk result (λ bytes. bytes.items ≡ codes "no 16 suspended " ++ three_numbers group.0 top.0 faults) }
{
    let group = group.0;
    let top = top.0;
    Ok(format!(in alloc; "no 16 suspended {group} {top} {faults}")?.into_bytes())
}

fn write_exhausted(
    alloc: Global,
    level: u32,
    index: u64,
    leaves: &[NamedLeaf],
) -> Result<Vec<u8>, MemFault>
    ensures { IfOk result (λ bytes. bytes.items ≡ codes "no 15 exhausted " ++ exhausted_text level index leaves.now) }
{
    let leaves = write_leaves(alloc, leaves)?;
    let mut text = with_two(alloc, b"no 15 exhausted ", u64::from(level), index)?;
    text.push(b' ')?;
    text.extend_from_slice(&leaves)?;
    Ok(text)
}

fn write_leaves(alloc: Global, leaves: &[NamedLeaf]) -> Result<Vec<u8>, MemFault>
    ensures { IfOk result (λ bytes. bytes.items ≡ with_commas (map named_leaf_text leaves.now)) }
{
    let mut text = Vec::new(alloc);
    for (at, leaf) in leaves.iter().enumerate() {
        push_comma(&mut text, at)?;
        push_leaf(&mut text, leaf)?;
    }
    Ok(text)
}

fn push_leaf(text: &mut Vec<u8>, leaf: &NamedLeaf) -> Result<(), MemFault>
    ensures { OnOk result (text.new.items ≡ text.old.items ++ named_leaf_text leaf.now) }
{
    text.extend_from_slice(leaf.name.as_bytes())?;
    text.push(b'=')?;
    text.extend_from_slice(seen_word(leaf.seen))?;
    Ok(())
}

fn seen_word(seen: Seen) -> &'static [u8]
    ensures { result.now ≡ seen_text seen }
{
    match seen {
        Seen::Unreadable => b"unreadable",
        Seen::Failed => b"failed",
        Seen::Mismatch => b"mismatch",
    }
}
