//! A device of a bank in memory at a moment, and what a buffer shows of it.
ghost use Rattle.std.specs.Prelude.{◌≡◌, ◌≢◌, true, ℕ, ◌+◌, ◌<◌, ◌≤◌, length, List};
ghost use Rattle.bank_core.specs.Disk.{sectors_in, sector_of, IsClean};
ghost use Rattle.bank_core.specs.Memory.{sector_then};
ghost use Rattle.bank_core.specs.Image.{newest, IsChosen, ShowsChosen};
ghost use Rattle.bank_core.specs.View.{view_of, held_bytes, Shows, ShowsClean};

use crate::bank::SECTOR_BYTES;
use crate::call::{Damage, MemCall};
use crate::device::MemDevice;
use crate::view::{Held, Last, Shown, View, first_view, hurt, show, view_after};

/// What a crash leaves of a sector that is pending or damaged.
#[derive(Clone, Copy, Debug, PartialEq, Eq)]
pub enum ImageChoice {
    /// The bytes that stand on it.
    Old,
    /// The bytes of the last write to it, and where there is none the ones that stand on it.
    New,
    Zeros,
    /// Bytes that depend on this number and on the sector's place.
    Noise(u64),
    /// One of these, which depends on this number and on the sector's place.
    Mixed(u64),
}

/// What a buffer is to show: what a read gives, or what a crash leaves.
#[derive(Clone, Copy)]
pub(crate) enum Showing {
    Read,
    Image(ImageChoice),
}

/// A device behind a front of the list of calls, with the damage that comes with the next one.
#[derive(Clone, Copy)]
pub(crate) struct Moment<'a> {
    pub(crate) device: &'a MemDevice,
    pub(crate) dev: u32,
    pub(crate) calls: &'a [MemCall],
    pub(crate) damage: &'a [Damage],
}

/// The sector at this moment.
pub(crate) fn view_at<'a>(moment: Moment<'a>, sector: u64) -> View<'a>
    requires { sector < moment.device.now.sectors }
    ensures { view_of result
        ≡ sector_then moment.entry.device.now moment.entry.calls.now moment.entry.damage.now moment.entry.dev sector }
{
    let first = first_view(moment.device, moment.dev, sector);
    let view = view_after(moment.calls, moment.dev, sector, first);
    hurt(view, moment.damage, moment.dev, sector)
}

#[tactic(auto, unfolding(crate::specs::Disk::sector_size))]
/// Shows the sectors from `at` on: the stable bytes at each clean one.
pub(crate) fn show_from(moment: Moment, at: u64, showing: Showing, out: &mut [u8])
    requires { at + sectors_in out.old ≤ moment.device.now.sectors }
    ensures clean { ShowsClean (λ i. sector_then moment.entry.device.now moment.entry.calls.now moment.entry.damage.now moment.entry.dev (at + i))
        (sectors_in out.new) out.new }
    ensures chosen { (choice : ImageChoice) → showing ≡ Showing.Image choice
        → ShowsChosen choice (λ i. sector_then moment.entry.device.now moment.entry.calls.now moment.entry.damage.now moment.entry.dev (at + i))
        (sectors_in out.new) out.new }
{
    for i in 0..out.len() / SECTOR_BYTES {
        let sector = at + i as u64;
        show_at(shown_of(view_at(moment, sector), showing, sector), out, i);
    }
}

/// Shows one sector at its place in a buffer.
#[tactic(auto, unfolding(crate::specs::Disk::sector_size))]
fn show_at(shown: Shown, out: &mut [u8], i: usize)
    requires { i < sectors_in out.old }
    ensures here { Shows shown.entry (sector_of i out.new) }
    ensures others { (j : ℕ) → j ≢ i → sector_of j out.new ≡ sector_of j out.old }
{
    let from = i * SECTOR_BYTES;
    show(shown, &mut out[from..from + SECTOR_BYTES]);
}

/// What to show of a sector: just what stands on it, where it is clean.
fn shown_of<'a>(view: View<'a>, showing: Showing, sector: u64) -> Shown<'a>
    ensures clean { IsClean (view_of view.entry) → result ≡ Shown.Held view.entry.stable }
    ensures chosen { (choice : ImageChoice) (bytes : List ℕ) → showing ≡ Showing.Image choice → Shows result bytes
        → IsChosen choice (view_of view.entry) bytes }
{
    if is_clean(view) {
        return Shown::Held(view.stable);
    }
    match showing {
        Showing::Read => read_of(view),
        Showing::Image(choice) => image_of(view, choice, sector),
    }
}

fn is_clean(view: View) -> bool
    ensures clean { result ≡ true → IsClean (view_of view.entry) }
    ensures other { IsClean (view_of view.entry) → result ≡ true }
{
    match view.last {
        Last::Nothing => !view.damaged,
        Last::Written(_) => false,
        Last::Failing(_) => false,
    }
}

/// What a read gives of a sector that isn't clean.
fn read_of<'a>(view: View<'a>) -> Shown<'a> {
    if view.damaged {
        return Shown::Fill(view.fill);
    }
    Shown::Held(newest(view))
}

fn newest<'a>(view: View<'a>) -> Held<'a>
    ensures { held_bytes result ≡ newest (view_of view.entry) }
{
    match view.last {
        Last::Nothing => view.stable,
        Last::Written(bytes) => Held::Bytes(bytes),
        Last::Failing(bytes) => Held::Bytes(bytes),
    }
}

/// What a crash leaves of a sector that isn't clean.
fn image_of<'a>(view: View<'a>, choice: ImageChoice, sector: u64) -> Shown<'a>
    ensures { (bytes : List ℕ) → Shows result bytes → IsChosen choice (view_of view.entry) bytes }
{
    match choice {
        ImageChoice::Old => Shown::Held(view.stable),
        ImageChoice::New => Shown::Held(newest(view)),
        ImageChoice::Zeros => Shown::Held(Held::Zeros),
        ImageChoice::Noise(seed) => Shown::Noise(mixed(seed, sector)),
        ImageChoice::Mixed(seed) => mixture_of(view, mixed(seed, sector)),
    }
}

fn mixture_of<'a>(view: View<'a>, number: u64) -> Shown<'a> {
    match number % 4 {
        0 => Shown::Held(view.stable),
        1 => Shown::Held(newest(view)),
        2 => Shown::Held(Held::Zeros),
        _ => Shown::Noise(number),
    }
}

/// A number that depends on the seed and on the sector's place (the mixing step of splitmix64).
fn mixed(seed: u64, sector: u64) -> u64 {
    let step = sector.wrapping_add(1).wrapping_mul(0x9e37_79b9_7f4a_7c15);
    let first = seed.wrapping_add(step);
    let second = (first ^ (first >> 30)).wrapping_mul(0xbf58_476d_1ce4_e5b9);
    let third = (second ^ (second >> 27)).wrapping_mul(0x94d0_49bb_1331_11eb);
    third ^ (third >> 31)
}
