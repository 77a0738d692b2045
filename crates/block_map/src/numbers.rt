//! The numbers of keys and places, by which lists and bitmaps are reached. The order of keys is the order of their
//! numbers, and the order of places too: by sector, and then by top.
ghost use Rattle.std.specs.Prelude.{◌≡◌, ℕ, suc, ◌+◌, ◌*◌, ◌^◌, ◌<◌, ◌≤◌};
ghost use Rattle.block_map.specs.Keys.{keys_at, IsVolume, IsKey, child};
ghost use Rattle.block_map.specs.Numbers.{start, slots, key_number, place_number, place_at};

use mp_base::{Key, Place};

/// The pointers of a page.
pub(crate) const FANOUT: u64 = 64;

/// The levels of pages over the blocks.
pub(crate) const LEVELS: u32 = 3;

pub(crate) fn keys_at(blocks: u64, level: u32) -> u64
    requires { blocks ≤ 262144 }
    ensures { result ≡ keys_at blocks level }
{
    let mut keys = blocks;
    for _ in 0..level {
        keys = (keys + (FANOUT - 1)) / FANOUT;
    }
    keys
}

fn start(blocks: u64, level: u32) -> u64
    requires blocks { blocks ≤ 262144 }
    requires level { level ≤ 3 }
    ensures value { result ≡ start blocks level }
    ensures small { result ≤ 2 ^ 28 }
{
    let mut start = 0;
    let mut keys = blocks;
    for _ in 0..level {
        keys = (keys + (FANOUT - 1)) / FANOUT;
        start += FANOUT * keys;
    }
    start
}

/// How many numbers the keys of a volume take.
pub(crate) fn slots(blocks: u64) -> usize
    requires { blocks ≤ 262144 }
    ensures value { result ≡ slots blocks }
    ensures small { result ≤ 2 ^ 29 }
{
    start(blocks, LEVELS) as usize + 1
}

pub(crate) fn key_number(blocks: u64, key: Key) -> usize
    requires blocks { IsVolume blocks }
    requires key { IsKey blocks key }
    ensures value { result ≡ key_number blocks key }
    ensures inside { result < slots blocks }
    ensures small { result < 2 ^ 29 }
{
    (start(blocks, key.level) + key.index) as usize
}

/// The key of a page's first pointer.
pub(crate) fn first_child(page: Key) -> Key
    requires level { 1 ≤ page.level }
    requires index { page.index < 2 ^ 32 }
    ensures { result ≡ child page 0 }
{
    Key {
        level: page.level - 1,
        index: FANOUT * page.index,
    }
}

/// The level in whose part a number lies, and its place in that part.
pub(crate) fn key_at(blocks: u64, number: usize) -> Key
    requires blocks { blocks ≤ 262144 }
    ensures level { result.level ≤ 3 }
    ensures number { key_number blocks result ≡ number }
    ensures part { result.level < 3 → number < start blocks (suc result.level) }
{
    let mut level = LEVELS;
    while (number as u64) < start(blocks, level) {
        level -= 1;
    }
    Key {
        level,
        index: number as u64 - start(blocks, level),
    }
}

#[tactic(auto, unfolding(crate::specs::Numbers::place_number))]
pub(crate) fn place_number(tops: usize, place: Place) -> usize
    requires tops { tops ≤ 8 }
    requires sector { place.sector < 2 ^ 32 }
    ensures { result ≡ place_number tops place }
{
    place.sector as usize * tops + place.top as usize
}

#[tactic(auto, unfolding(crate::specs::Numbers::place_at))]
pub(crate) fn place_at(tops: usize, number: usize) -> Place
    requires some { 1 ≤ tops }
    requires tops { tops ≤ 8 }
    ensures { result ≡ place_at tops number }
{
    Place {
        top: (number % tops) as u32,
        sector: (number / tops) as u64,
    }
}
