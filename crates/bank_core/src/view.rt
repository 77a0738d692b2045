//! What calls leave of one sector, found by going through their list once, without memory.
ghost use Rattle.std.specs.Prelude.{◌≡◌, ℕ, ◌+◌, ◌-◌, ◌*◌, ◌/◌, ◌%◌, ◌<◌, ◌≤◌, length, map, Some, cond, nat_lt};
ghost use Rattle.bank_core.specs.Disk.{sector_size, sectors_in, sector_of, hurt, after_write, after_call, replay};
ghost use Rattle.bank_core.specs.Memory.{is_damaged, first_sector, noted_alone, write_of, flush_of, zero_sector};
ghost use Rattle.bank_core.specs.View.{held_bytes, pending_of, view_of, Shows};

use crate::bank::{Fault, SECTOR_BYTES};
use crate::call::{CallKind, Damage, MemCall, fill_of, is_damaged};
use crate::device::MemDevice;
use crate::piece::{SectorBytes, sector_at};

/// What is held at a sector.
#[derive(Clone, Copy)]
pub(crate) enum Held<'a> {
    Zeros,
    Bytes(SectorBytes<'a>),
}

/// What was written to a sector since it was last stable.
#[derive(Clone, Copy)]
pub(crate) enum Last<'a> {
    Nothing,
    Written(SectorBytes<'a>),
    Failing(SectorBytes<'a>),
}

/// What a buffer is to show of a sector.
#[derive(Clone, Copy)]
pub(crate) enum Shown<'a> {
    Held(Held<'a>),
    Fill(u8),
    Noise(u64),
}

/// A sector, and the byte that a read gives where it is damaged.
#[derive(Clone, Copy)]
pub(crate) struct View<'a> {
    pub(crate) stable: Held<'a>,
    pub(crate) last: Last<'a>,
    pub(crate) damaged: bool,
    pub(crate) fill: u8,
}

/// The sector of a device as it is before the first call.
#[tactic(auto, unfolding(crate::specs::Disk::sector_size))]
pub(crate) fn first_view<'a>(device: &'a MemDevice, dev: u32, sector: u64) -> View<'a>
    requires { sector < device.now.sectors }
    ensures { view_of result ≡ first_sector (Some device.entry.now) dev sector }
{
    let damaged = is_damaged(&device.damage, dev, sector);
    View {
        stable: first_held(&device.first, sector),
        last: Last::Nothing,
        damaged,
        fill: fill_of(&device.damage, dev, sector),
    }
}

#[tactic(auto, unfolding(crate::specs::Disk::sector_size))]
fn first_held<'a>(first: &'a [u8], sector: u64) -> Held<'a>
    ensures { held_bytes result ≡ cond (nat_lt sector (sectors_in first.entry.now)) (sector_of sector first.entry.now) zero_sector }
{
    if (sector as usize) < first.len() / SECTOR_BYTES {
        Held::Bytes(sector_at(first, sector as usize))
    } else {
        Held::Zeros
    }
}

/// The sector behind these calls, the oldest first.
pub(crate) fn view_after<'a>(
    calls: &'a [MemCall],
    dev: u32,
    sector: u64,
    first: View<'a>,
) -> View<'a>
    ensures { view_of result ≡ replay (map noted_alone calls.entry.now) dev sector (view_of first.entry) }
{
    let mut view = first;
    for call in calls {
        view = after(call, dev, sector, view);
    }
    view
}

/// The sector behind this call.
fn after<'a>(call: &'a MemCall, dev: u32, sector: u64, view: View<'a>) -> View<'a>
    ensures { view_of result ≡ after_call (noted_alone call.entry.now) dev sector (view_of view.entry) }
{
    let hurt = hurt(view, &call.damage, dev, sector);
    if call.dev != dev {
        return hurt;
    }
    match call.kind {
        CallKind::Read => hurt,
        CallKind::Write => after_write(hurt, call, sector),
        CallKind::Flush => after_flush(hurt, call.fault),
    }
}

/// The sector with the damage among these that lies on it.
pub(crate) fn hurt<'a>(view: View<'a>, damages: &[Damage], dev: u32, sector: u64) -> View<'a>
    ensures { view_of result ≡ hurt (is_damaged damages.now dev sector) (view_of view.entry) }
{
    if !is_damaged(damages, dev, sector) {
        return view;
    }
    View {
        stable: view.stable,
        last: view.last,
        damaged: true,
        fill: fill_of(damages, dev, sector),
    }
}

#[tactic(auto, unfolding(crate::specs::Disk::sector_size))]
fn after_write<'a>(view: View<'a>, call: &'a MemCall, sector: u64) -> View<'a>
    ensures { view_of result ≡ write_of call.entry.now sector (view_of view.entry) }
{
    let at = call.at;
    if sector < at {
        return view;
    }
    let i = (sector - at) as usize;
    if i >= call.bytes.len() / SECTOR_BYTES {
        return view;
    }
    View {
        stable: view.stable,
        last: last_of(call.fault, sector_at(&call.bytes, i)),
        damaged: view.damaged,
        fill: view.fill,
    }
}

fn last_of<'a>(fault: Option<Fault>, bytes: SectorBytes<'a>) -> Last<'a>
    ensures { pending_of result ≡ after_write fault bytes.entry.bytes.now }
{
    match fault {
        None => Last::Written(bytes),
        Some(_) => Last::Failing(bytes),
    }
}

fn after_flush<'a>(view: View<'a>, fault: Option<Fault>) -> View<'a>
    ensures { view_of result ≡ flush_of fault (view_of view.entry) }
{
    match (fault, view.last) {
        (None, Last::Written(bytes)) => View {
            stable: Held::Bytes(bytes),
            last: Last::Nothing,
            damaged: false,
            fill: view.fill,
        },
        _ => view,
    }
}

/// Shows a sector in a buffer of its size.
pub(crate) fn show(shown: Shown, out: &mut [u8])
    requires { length out.old ≡ 4096 }
    ensures { Shows shown.entry out.new }
{
    match shown {
        Shown::Held(held) => show_held(held, out),
        Shown::Fill(byte) => out.fill(byte),
        Shown::Noise(seed) => add_noise(seed, out),
    }
}

fn show_held(held: Held, out: &mut [u8])
    requires { length out.old ≡ 4096 }
    ensures { out.new ≡ held_bytes held.entry }
{
    match held {
        Held::Zeros => clear(out),
        Held::Bytes(x) => out.copy_from_slice(x.bytes),
    }
}

#[tactic(auto, unfolding(crate::specs::Memory::zero_sector, crate::specs::Disk::sector_size))]
fn clear(out: &mut [u8])
    requires { length out.old ≡ 4096 }
    ensures { out.new ≡ zero_sector }
{
    out.fill(0);
}

/// Fills a buffer with bytes that depend on the seed alone.
fn add_noise(seed: u64, out: &mut [u8]) {
    let mut state = seed;
    for byte in out.iter_mut() {
        state = state
            .wrapping_mul(6364136223846793005)
            .wrapping_add(1442695040888963407);
        *byte = (state >> 56) as u8;
    }
}
