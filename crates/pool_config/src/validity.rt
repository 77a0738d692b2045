//! What is asked of the parts of a configuration together.
ghost use Rattle.std.specs.Prelude.{◌≡◌, ◌^◌, ◌≤◌, ◌==◌, ◌&&◌, length, map, nat_le, sum};
ghost use Rattle.std.specs.List.{list_all, list_any};
ghost use Rattle.std.specs.Str.{bytes_eq};
ghost use Rattle.mp_base.specs.Block.{zeros};
ghost use Rattle.pool_config.specs.Members.{nothing, gathered};
ghost use Rattle.pool_config.specs.Seen.{config_seen, top_seen, all_vdevs};
ghost use Rattle.pool_config.specs.Validity.{is_whole, are_bounds, is_root, are_together, is_in, rises, all_differ};
ghost use Rattle.pool_config.specs.Validity.{is_hole, is_placed, are_sized, is_drawn, are_drawn, are_devices};
ghost use Rattle.pool_config.specs.Validity.{are_spares};

use crate::config::Config;
use crate::members::Members;
use mp_base::{Group, GroupRange, Name, Pointer};
use vdev_tree::Top;

/// The most blocks of a volume.
const MOST_BLOCKS: u64 = 262_144;

/// The last number of a group and of a member.
pub(crate) const LAST_NUMBER: u64 = 1 << 62;

const MOST_TOPS: u64 = 8;

/// The fewest data sectors of a top.
const LEAST_SECTORS: u64 = 64;

/// The most data sectors of a top.
const MOST_SECTORS: u64 = 1_048_320;

const MOST_LEAVES: usize = 32;

/// The most ranges of all logs.
pub(crate) const MOST_RANGES: usize = 4096;

const MOST_SPARES: usize = 16;

/// Whether a configuration, whose parts are valid one by one, is valid as a whole. `members` is what is
/// gathered of its vdevs.
#[tactic(auto, unfolding(crate::specs::Validity::is_whole))]
pub(crate) fn is_whole(c: &Config, members: &Members) -> bool
    requires { members.now ≡ gathered nothing (all_vdevs (config_seen c.now)) }
    ensures { result ≡ is_whole (config_seen c.now) }
{
    if !are_bounds(c) {
        return false;
    }
    if !is_root(c) {
        return false;
    }
    if !are_sized(&c.tops) {
        return false;
    }
    if !are_together(c, members) {
        return false;
    }
    are_spares(&c.spares)
}

#[tactic(auto, unfolding(crate::specs::Validity::are_bounds))]
fn are_bounds(c: &Config) -> bool
    ensures { result ≡ are_bounds (config_seen c.now) }
{
    if !is_in(0, u64::MAX, c.pool.0) {
        return false;
    }
    if !is_in(1, MOST_BLOCKS, c.blocks) {
        return false;
    }
    c.next_guid <= LAST_NUMBER
}

#[tactic(auto, unfolding(crate::specs::Validity::is_root))]
fn is_root(c: &Config) -> bool
    ensures { result ≡ is_root (config_seen c.now) }
{
    is_hole(&c.root) || is_placed(c.number, &c.tops, &c.root)
}

// Whether no two vdevs have one number and no two leaves one device, and the logs are few.
fn are_together(c: &Config, members: &Members) -> bool
    requires { members.now ≡ gathered nothing (all_vdevs (config_seen c.now)) }
    ensures { result ≡ are_together (config_seen c.now) }
{
    are_apart(c.next_guid, members)
}

fn are_apart(next: u64, members: &Members) -> bool
    ensures { result ≡ (are_devices members.now.names && (are_drawn next members.now.numbers && nat_le (sum members.now.lengths) 4096)) }
{
    if !are_devices(members.names()) {
        return false;
    }
    if !are_drawn(next, members.numbers()) {
        return false;
    }
    are_few(members.lengths())
}

pub(crate) fn is_in(least: u64, most: u64, n: u64) -> bool
    ensures { result ≡ is_in least most n }
{
    least <= n && n <= most
}

fn is_hole(p: &Pointer) -> bool
    ensures { result ≡ is_hole p.now }
{
    p.birth.0 == 0 && p.place.top == 0 && p.place.sector == 0 && are_zero(&p.sum)
}

fn are_zero(sum: &[u8; 32]) -> bool
    ensures { result ≡ bytes_eq sum.now (zeros 32) }
{
    *sum == [0; 32]
}

fn is_placed(number: Group, tops: &[Top], p: &Pointer) -> bool
    ensures { result ≡ is_placed number (map top_seen tops.now) p.now }
{
    if !is_in(1, number.0, p.birth.0) {
        return false;
    }
    match tops.get(p.place.top as usize) {
        None => false,
        Some(top) => p.place.sector < top.sectors,
    }
}

fn are_sized(tops: &[Top]) -> bool
    ensures { result ≡ are_sized (map top_seen tops.now) }
{
    are_some(tops) && all_sized(tops)
}

fn are_some(tops: &[Top]) -> bool
    ensures { result ≡ is_in 1 8 (length tops.now) }
{
    is_in(1, MOST_TOPS, tops.len() as u64)
}

fn all_sized(tops: &[Top]) -> bool
    ensures { result ≡ list_all (λ top. is_in 64 1048320 top.sectors) tops.now }
{
    tops.iter()
        .all(|top| is_in(LEAST_SECTORS, MOST_SECTORS, top.sectors))
}

fn are_drawn(next: u64, numbers: &[u64]) -> bool
    ensures { result ≡ are_drawn next numbers.now }
{
    all_drawn(next, numbers) && numbers_differ(numbers)
}

fn all_drawn(next: u64, numbers: &[u64]) -> bool
    ensures { result ≡ list_all (is_drawn next) numbers.now }
{
    numbers.iter().all(|number| is_drawn(next, *number))
}

fn is_drawn(next: u64, number: u64) -> bool
    ensures { result ≡ is_drawn next number }
{
    1 <= number && number < next
}

fn are_devices(names: &[Name]) -> bool
    ensures { result ≡ are_devices names.now }
{
    names.len() <= MOST_LEAVES && names_differ(names)
}

fn are_spares(names: &[Name]) -> bool
    ensures { result ≡ are_spares names.now }
{
    names.len() <= MOST_SPARES && names_differ(names)
}

fn numbers_differ(numbers: &[u64]) -> bool
    ensures { result ≡ all_differ (λ a b. a == b) numbers.now }
{
    match numbers {
        [] => true,
        [first, others @ ..] => !is_number_among(*first, others) && numbers_differ(others),
    }
}

fn is_number_among(number: u64, others: &[u64]) -> bool
    ensures { result ≡ list_any (λ other. number == other) others.now }
{
    others.iter().any(|other| number == *other)
}

fn names_differ(names: &[Name]) -> bool
    ensures { result ≡ all_differ bytes_eq names.now }
{
    match names {
        [] => true,
        [first, others @ ..] => !is_name_among(first, others) && names_differ(others),
    }
}

fn is_name_among(name: &Name, others: &[Name]) -> bool
    ensures { result ≡ list_any (λ other. bytes_eq name.now other) others.now }
{
    others.iter().any(|other| *name == *other)
}

// Whether the logs together have at most the ranges that a pool may have.
fn are_few(lengths: &[usize]) -> bool
    ensures { result ≡ nat_le (sum lengths.now) 4096 }
{
    let mut left = MOST_RANGES;
    for length in lengths {
        if *length > left {
            return false;
        }
        left -= *length;
    }
    true
}

/// Whether each range begins behind a group that neither it nor the one before it has, and none ends
/// above this group.
pub(crate) fn rises(most: Group, log: &[GroupRange]) -> bool
    requires { most.0 ≤ 2 ^ 62 }
    ensures { result ≡ rises 1 most.0 log.now }
{
    let mut least = 1;
    for range in log {
        if range.low.0 < least || range.high < range.low || most < range.high {
            return false;
        }
        least = range.high.0 + 2;
    }
    true
}
