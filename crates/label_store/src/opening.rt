//! The newest record of a name on some devices.
ghost use Rattle.std.specs.Prelude.{◌≡◌, ℕ, ◌+◌, ◌*◌, ◌%◌, ◌<◌, ◌≤◌, List, Some, None, true, false, length, take, IfOk, IfSome, IfNone, slice_get};
ghost use Rattle.std.specs.Option.{option_copied};
ghost use Rattle.sha2.specs.Sha256.{sha256};
ghost use Rattle.bank_core.specs.Disk.{sector_of};
ghost use Rattle.label_store.specs.Newest.{Parts, IsVerifiedBy, IsBest};
ghost use Rattle.label_store.specs.Opening.{NamesConfig, HasConfig, HasConfigIn, HasConfigAt, IsUberblockAt, IsNewer, number_of};
ghost use Rattle.label_store.specs.Uberblock.{IsUberblock};
ghost use Rattle.label_store.specs.declared.uberblock.Uberblock.{Uberblock};

use crate::found::Found;
use crate::part::Part;
use crate::rule::BlobRule;
use crate::uberblock::{Uberblock, read_uberblock};
use bank_core::SECTOR_BYTES;
use mp_base::{MemFault, Name};
use sha2::{Digest, Sha256};
use std::alloc::Global;

// Whether the bytes are a configuration of the name, with the uberblock's pool and number.
fn names_config<R: BlobRule>(
    alloc: Global,
    config: &[u8],
    u: &Uberblock,
    name: &Name,
) -> Result<bool, MemFault>
    ensures yes { IfOk result (λ found. found ≡ true → NamesConfig R.head_of name.now u.now config.now) }
    ensures no { IfOk result (λ found. found ≡ false → ¬ (NamesConfig R.head_of name.now u.now config.now)) }
{
    match R::reads(alloc, config)? {
        Some(head) => Ok(head.pool == u.pool && head.number == u.number && head.name == *name),
        None => Ok(false),
    }
}

// Whether a part begins with the configuration that the uberblock names.
fn has_config<R: BlobRule>(
    alloc: Global,
    part: &[u8],
    u: &Uberblock,
    name: &Name,
) -> Result<bool, MemFault>
    ensures yes { IfOk result (λ found. found ≡ true → HasConfig R.head_of name.now u.now part.now) }
    ensures no { IfOk result (λ found. found ≡ false → ¬ (HasConfig R.head_of name.now u.now part.now)) }
{
    if u.length > part.len() as u64 {
        return Ok(false);
    }
    let config = &part[..u.length as usize];
    if !has_sum(config, &u.sum) {
        return Ok(false);
    }
    names_config::<R>(alloc, config, u, name)
}

fn has_sum(bytes: &[u8], sum: &[u8; 32]) -> bool
    ensures yes { result ≡ true → sha256 bytes.now ≡ sum.now }
    ensures no { sha256 bytes.now ≡ sum.now → result ≡ true }
{
    Sha256::digest(bytes) == *sum
}

// The uberblock in a slot of a ring.
fn uberblock_in(ring: &[u8], slot: usize) -> Option<Uberblock>
    requires { slot < 32 }
    ensures correct { IfSome result (λ u. IsUberblock u (sector_of slot ring.now)) }
    ensures exact { (u : Uberblock) → IsUberblock u (sector_of slot ring.now) → result ≡ Some u }
{
    let start = slot * SECTOR_BYTES;
    if ring.len() < start + SECTOR_BYTES {
        return None;
    }
    read_uberblock(&ring[start..start + SECTOR_BYTES])
}

// The configuration at the front of these bytes.
fn config_from<R: BlobRule>(
    alloc: Global,
    bytes: &[u8],
    u: &Uberblock,
    name: &Name,
) -> Result<Option<Vec<u8>>, MemFault>
    ensures some { IfOk result (λ found. IfSome found (λ config. HasConfigAt R.head_of (Some bytes.now) name.now u.now config.items)) }
    ensures none { IfOk result (λ found. IfNone found (¬ (HasConfig R.head_of name.now u.now bytes.now))) }
{
    if !has_config::<R>(alloc, bytes, u, name)? {
        return Ok(None);
    }
    let end = (u.length as usize).min(bytes.len());
    Ok(Some(Vec::from_slice(alloc, &bytes[..end])?))
}

fn config_at<R: BlobRule>(
    alloc: Global,
    part: &Part,
    u: &Uberblock,
    name: &Name,
) -> Result<Option<Vec<u8>>, MemFault>
    ensures some { IfOk result (λ found. IfSome found (λ config. HasConfigAt R.head_of part.now name.now u.now config.items)) }
    ensures none { IfOk result (λ found. IfNone found ((config : List ℕ) → ¬ (HasConfigAt R.head_of part.now name.now u.now config))) }
{
    match part.bytes() {
        None => Ok(None),
        Some(bytes) => config_from::<R>(alloc, bytes, u, name),
    }
}

// The configuration that the uberblock names, from the first label that has it.
fn config_in<R: BlobRule>(
    alloc: Global,
    parts: &[Part],
    u: &Uberblock,
    name: &Name,
) -> Result<Option<Vec<u8>>, MemFault>
    requires { length parts.now ≡ 8 }
    ensures some { IfOk result (λ found. IfSome found (λ config. HasConfigIn R.head_of parts.now name.now u.now config.items)) }
    ensures none { IfOk result (λ found. IfNone found ((config : List ℕ) → ¬ (HasConfigIn R.head_of parts.now name.now u.now config))) }
{
    for label in 0..4 {
        match config_at::<R>(alloc, &parts[2 * label + 1], u, name)? {
            Some(config) => return Ok(Some(config)),
            None => {}
        }
    }
    Ok(None)
}

// The uberblock at one of the 128 places.
fn uberblock_at(parts: &[Part], place: usize) -> Option<Uberblock>
    requires eight { length parts.now ≡ 8 }
    requires inside { place < 128 }
    ensures correct { IfSome result (λ u. IsUberblockAt parts.now place u) }
    ensures exact { (u : Uberblock) → IsUberblockAt parts.now place u → result ≡ Some u }
{
    match parts[2 * (place / 32)].bytes() {
        None => None,
        Some(ring) => uberblock_in(ring, place % 32),
    }
}

// The same, where its number is above this one.
fn newer_at(parts: &[Part], place: usize, above: u64) -> Option<Uberblock>
    requires eight { length parts.now ≡ 8 }
    requires inside { place < 128 }
    ensures correct { IfSome result (λ u. IsUberblockAt parts.now place u) }
    ensures newer { IfSome result (λ u. above < u.number.0) }
    ensures exact { (u : Uberblock) → IsUberblockAt parts.now place u → above < u.number.0 → result ≡ Some u }
{
    match uberblock_at(parts, place) {
        Some(u) if above < u.number.0 => Some(u),
        Some(_) => None,
        None => None,
    }
}

// The record at a place, where its number is above this one.
fn newer_record<R: BlobRule>(
    alloc: Global,
    parts: &[Part],
    place: usize,
    name: &Name,
    above: u64,
) -> Result<Option<Found>, MemFault>
    requires eight { length parts.now ≡ 8 }
    requires inside { place < 128 }
    ensures some { IfOk result (λ found. IfSome found (λ record'. IsNewer R.head_of parts.now name.now place above record')) }
    ensures none { IfOk result (λ found. IfNone found ((u : Uberblock) (config : List ℕ)
        → IsVerifiedBy R.head_of parts.now name.now place u config → u.number.0 ≤ above)) }
{
    let u = match newer_at(parts, place, above) {
        None => return Ok(None),
        Some(u) => u,
    };
    match config_in::<R>(alloc, parts, &u, name)? {
        None => Ok(None),
        Some(blob) => Ok(Some(Found {
            number: u.number,
            pool: u.pool,
            blob,
        })),
    }
}

fn number_of(best: &Option<Found>) -> u64
    ensures { result ≡ number_of best.now }
{
    match best {
        Some(found) => found.number.0,
        None => 0,
    }
}

// The best record, one place further.
fn better<R: BlobRule>(
    alloc: Global,
    parts: &[Part],
    place: usize,
    name: &Name,
    best: Option<Found>,
) -> Result<Option<Found>, MemFault>
    requires eight { length parts.now ≡ 8 }
    requires inside { place < 128 }
    ensures { (looks : List Parts) (i : ℕ) → slice_get looks i ≡ Some parts.now → IsBest R.head_of looks name.now (128 * i + place) best
        → IfOk result (λ new. IsBest R.head_of looks name.now (128 * i + place + 1) new) }
{
    let above = number_of(&best);
    match newer_record::<R>(alloc, parts, place, name, above)? {
        Some(found) => Ok(Some(found)),
        None => Ok(best),
    }
}

// The best record, one device further.
pub(crate) fn best_of<R: BlobRule>(
    alloc: Global,
    parts: &[Part],
    name: &Name,
    best: Option<Found>,
) -> Result<Option<Found>, MemFault>
    requires { length parts.now ≡ 8 }
    ensures { (looks : List Parts) (i : ℕ) → slice_get looks i ≡ Some parts.now → IsBest R.head_of looks name.now (128 * i) best
        → IfOk result (λ new. IsBest R.head_of looks name.now (128 * (i + 1)) new) }
{
    let mut best = best;
    for place in 0..128 {
        best = better::<R>(alloc, parts, place, name, best)?;
    }
    Ok(best)
}
