//! Which configurations are valid.
ghost use Rattle.std.specs.Prelude.{◌≡◌, ◌^◌, ◌≤◌, IsTrue};
ghost use Rattle.config_codec.specs.Fields.{parts_fields};
ghost use Rattle.config_codec.specs.Validity.{is_valid, is_in, is_drawn, is_pointer, is_slot, are_slots, are_in_range, are_drawn, are_distinct, are_names, are_two_devices, are_pointers, are_logs};
ghost use Rattle.config_codec.specs.Ranges.{rises};

use crate::config::Pointer;
use crate::parts::Parts;
use mp_base::{Group, GroupRange, Guid};

/// The most blocks of a volume, as long as a configuration has all of its pointers.
pub(crate) const MOST_BLOCKS: u64 = 32;

/// The last number of a group and of a member.
const LAST_NUMBER: u64 = 1 << 62;

/// The fewest data sectors of a top: two for each block of the largest volume.
const LEAST_SECTORS: u64 = 64;

/// The most data sectors of a top.
const MOST_SECTORS: u64 = 1_048_320;

/// The most ranges of all logs.
pub(crate) const MOST_RANGES: usize = 4096;

/// Whether a configuration, whose names are known to be names, is valid.
#[tactic(auto, unfolding(crate::specs::Validity::is_valid))]
pub(crate) fn is_valid(c: &Parts) -> bool
    requires { IsTrue (are_names (parts_fields c.now)) }
    ensures { result ≡ is_valid (parts_fields c.now) }
{
    if !are_in_range(c) {
        return false;
    }
    if !are_drawn(c) {
        return false;
    }
    if !are_distinct(c) {
        return false;
    }
    if !are_two_devices(c) {
        return false;
    }
    if !are_pointers(c) {
        return false;
    }
    are_logs(c)
}

fn are_in_range(c: &Parts) -> bool
    ensures { result ≡ are_in_range (parts_fields c.now) }
{
    if !is_in(1, u64::MAX, c.pool.0) {
        return false;
    }
    if !is_in(1, MOST_BLOCKS, c.blocks) {
        return false;
    }
    if !is_in(1, LAST_NUMBER, c.number.0) {
        return false;
    }
    if c.next_member > LAST_NUMBER {
        return false;
    }
    is_in(LEAST_SECTORS, MOST_SECTORS, c.sectors)
}

fn is_in(least: u64, most: u64, n: u64) -> bool
    ensures { result ≡ is_in least most n }
{
    least <= n && n <= most
}

// Each member has a number that was drawn.
fn are_drawn(c: &Parts) -> bool
    ensures { result ≡ are_drawn (parts_fields c.now) }
{
    if !is_drawn(c.next_member, c.mirror) {
        return false;
    }
    if !is_drawn(c.next_member, c.first.member) {
        return false;
    }
    is_drawn(c.next_member, c.second.member)
}

fn is_drawn(next: u64, member: Guid) -> bool
    ensures { result ≡ is_drawn next member.0 }
{
    1 <= member.0 && member.0 < next
}

fn are_distinct(c: &Parts) -> bool
    ensures { result ≡ are_distinct (parts_fields c.now) }
{
    if c.mirror == c.first.member {
        return false;
    }
    if c.mirror == c.second.member {
        return false;
    }
    c.first.member != c.second.member
}

fn are_two_devices(c: &Parts) -> bool
    ensures { result ≡ are_two_devices (parts_fields c.now) }
{
    c.first.name != c.second.name
}

fn are_pointers(c: &Parts) -> bool
    ensures { result ≡ are_pointers (parts_fields c.now) }
{
    if c.pointers.len() as u64 != c.blocks {
        return false;
    }
    are_slots(c.number, c.pointers)
}

fn are_slots(number: Group, slots: &[Option<Pointer>]) -> bool
    ensures { result ≡ are_slots number slots.now }
{
    slots
        .iter()
        .enumerate()
        .all(|(address, slot)| is_slot(number, address as u64, *slot))
}

fn is_slot(number: Group, address: u64, slot: Option<Pointer>) -> bool
    ensures { result ≡ is_slot number address slot }
{
    match slot {
        None => true,
        Some(p) => is_pointer(number, address, p),
    }
}

fn is_pointer(number: Group, address: u64, p: Pointer) -> bool
    ensures { result ≡ is_pointer number address p }
{
    is_in(1, number.0, p.birth.0) && p.sector / 2 == address
}

fn are_logs(c: &Parts) -> bool
    requires { c.now.number.0 ≤ 2 ^ 62 }
    ensures { result ≡ are_logs (parts_fields c.now) }
{
    if c.first.log.len() + c.second.log.len() > MOST_RANGES {
        return false;
    }
    if !rises(c.number, c.first.log) {
        return false;
    }
    rises(c.number, c.second.log)
}

// Whether each range begins behind a group that neither it nor the one before it has, and none ends
// above this group.
fn rises(most: Group, log: &[GroupRange]) -> bool
    requires { most.0 ≤ 2 ^ 62 }
    ensures { result ≡ rises 1 most.0 log.now }
{
    let mut least = 1;
    for range in log {
        if range.low.0 < least || range.high < range.low || most < range.high {
            return false;
        }
        least = range.high.0 + 2;
    }
    true
}
