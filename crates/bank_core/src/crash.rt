//! Crashes of a bank in memory: what one may leave of its devices, and the bank that goes on from there.
ghost use Rattle.std.specs.Prelude.{◌≡◌, ℕ, ◌+◌, ◌<◌, ◌≤◌, ◌||◌, ◌&&◌, ◌==◌, List, [], Some, IfOk, OnOk, length, map, take, slice_get};
ghost use Rattle.bank_core.specs.Disk.{sectors_in, sector_size};
ghost use Rattle.bank_core.specs.MemBank.{bank_size, bank_names, bank_number, bank_calls, bank_told};
ghost use Rattle.bank_core.specs.Memory.{sector_then, is_damaged, names_in, size_in};
ghost use Rattle.bank_core.specs.Story.{at_moment, Story, IsCrashed};
ghost use Rattle.bank_core.specs.Image.{IsChosen, ShowsChosen};
ghost use Rattle.bank_core.specs.Left.{IsLeft, AreLeft};
ghost use Rattle.bank_core.specs.View.{ShowsClean};

use crate::bank::SECTOR_BYTES;
use crate::call::{Damage, MemCall};
use crate::device::MemDevice;
use crate::memory::MemBank;
use crate::moment::{ImageChoice, Moment, Showing, show_from, view_at};
use crate::view::View;
use mp_base::MemFault;
use std::alloc::Global;

impl MemBank {
    /// Shows what a crash may leave of a device, from sector `at` on: a crash at the moment behind the
    /// first calls, of which there are `moment`. Where a sector isn't clean, the choice says what is left.
    pub fn image(&self, moment: u64, dev: u32, at: u64, choice: ImageChoice, out: &mut [u8])
        requires past { moment ≤ bank_calls self.now }
        requires device { 0 < bank_size self.now dev }
        requires inside { at + sectors_in out.old ≤ bank_size self.now dev }
        ensures clean { (story : Story) → bank_told self.now ≡ Some story
            → ShowsClean (λ i. at_moment story moment dev (at + i)) (sectors_in out.new) out.new }
        ensures chosen { (story : Story) → bank_told self.now ≡ Some story
            → ShowsChosen choice (λ i. at_moment story moment dev (at + i)) (sectors_in out.new) out.new }
    {
        let moment = Moment {
            device: &self.devices[dev as usize],
            dev,
            calls: &self.calls[..moment as usize],
            damage: &[],
        };
        show_from(moment, at, Showing::Image(choice), out);
    }

    /// The bank that goes on after a crash at a moment: an image of each device is stable on it, nothing
    /// is pending, and what was damaged at that moment still is. Devices keep names, numbers and sizes.
    pub fn after_crash(
        &self,
        alloc: Global,
        moment: u64,
        choice: ImageChoice,
    ) -> Result<MemBank, MemFault>
        requires { moment ≤ bank_calls self.now }
        ensures names { IfOk result (λ bank. bank_names bank ≡ bank_names self.now) }
        ensures numbers { IfOk result (λ bank. (name : List ℕ) → bank_number bank name ≡ bank_number self.now name) }
        ensures sizes { IfOk result (λ bank. (d : ℕ) → bank_size bank d ≡ bank_size self.now d) }
        ensures calls { IfOk result (λ bank. bank_calls bank ≡ 0) }
        ensures told { IfOk result (λ bank. (story : Story) → bank_told self.now ≡ Some story
            → IsCrashed story moment (bank_told bank)) }
        ensures chosen { IfOk result (λ bank. (story begun : Story) → bank_told self.now ≡ Some story → bank_told bank ≡ Some begun
            → (d s : ℕ) → s < bank_size self.now d → IsChosen choice (at_moment story moment d s) (begun.start d s).stable) }
    {
        let calls = &self.calls[..moment as usize];
        let devices = devices_left(alloc, &self.devices, calls, choice)?;
        Ok(MemBank::of(alloc, devices))
    }
}

/// What a crash behind these calls leaves of each device.
fn devices_left(
    alloc: Global,
    devices: &[MemDevice],
    calls: &[MemCall],
    choice: ImageChoice,
) -> Result<Vec<MemDevice>, MemFault>
    requires { length devices.now ≤ 64 }
    ensures names { IfOk result (λ left. names_in left.items ≡ names_in devices.now) }
    ensures count { IfOk result (λ left. length left.items ≡ length devices.now) }
    ensures left { IfOk result (λ left. AreLeft choice devices.now calls.now left.items (length devices.now)) }
{
    let mut left = Vec::new(alloc);
    for (i, device) in devices.iter().enumerate() {
        let moment = Moment {
            device,
            dev: i as u32,
            calls,
            damage: &[],
        };
        left.push(device_left(alloc, moment, choice)?)?;
    }
    Ok(left)
}

/// What a crash at this moment leaves of the device.
#[tactic(auto, unfolding(crate::specs::Disk::sector_size))]
fn device_left(alloc: Global, moment: Moment, choice: ImageChoice) -> Result<MemDevice, MemFault>
    ensures name { IfOk result (λ left. left.name ≡ moment.entry.device.now.name) }
    ensures left { IfOk result (λ left. IsLeft choice
        (sector_then moment.entry.device.now moment.entry.calls.now moment.entry.damage.now moment.entry.dev)
        moment.entry.dev moment.entry.device.now.sectors left) }
{
    let device = moment.device;
    let mut first = vec![in alloc; 0u8; device.sectors as usize * SECTOR_BYTES]?;
    show_from(moment, 0, Showing::Image(choice), &mut first);
    let damage = damage_left(alloc, moment)?;
    Ok(MemDevice {
        name: device.name.copy(alloc)?,
        sectors: device.sectors,
        first,
        damage,
    })
}

/// The sectors of the device that are damaged at this moment.
fn damage_left(alloc: Global, moment: Moment) -> Result<Vec<Damage>, MemFault>
    ensures { IfOk result (λ damage. (s : ℕ) → s < moment.entry.device.now.sectors
        → is_damaged damage.items moment.entry.dev s
        ≡ (sector_then moment.entry.device.now moment.entry.calls.now moment.entry.damage.now moment.entry.dev s).damaged) }
{
    let mut damage = Vec::new(alloc);
    for sector in 0..moment.device.sectors {
        add_damage(&mut damage, view_at(moment, sector), moment.dev, sector)?;
    }
    Ok(damage)
}

/// Adds a sector where it is damaged.
fn add_damage(damage: &mut Vec<Damage>, view: View, dev: u32, sector: u64) -> Result<(), MemFault>
    ensures { OnOk result ((s : ℕ) → is_damaged damage.new.items dev s
        ≡ (is_damaged damage.old.items dev s || (view.entry.damaged && (s == sector)))) }
{
    if !view.damaged {
        return Ok(());
    }
    damage.push(Damage {
        dev,
        from: sector,
        to: sector,
        fill: view.fill,
    })?;
    Ok(())
}
