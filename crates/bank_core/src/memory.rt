//! A bank in memory, which tells what its devices hold, and whose calls fail as they are planned to.
ghost use Rattle.std.specs.Prelude.{◌≡◌, ℕ, ◌+◌, ◌%◌, ◌<◌, ◌≤◌, ◌++◌, [], ◌∷◌, length, true, is_some, slice_index, Some, None, IfOk, OnOk, OnErr};
ghost use Rattle.std.specs.List.{list_all};
ghost use Rattle.mp_base.specs.Outside.{Rose};
ghost use Rattle.bank_core.specs.Disk.{sector_size, sectors_in};
ghost use Rattle.bank_core.specs.Memory.{is_inside, size_in, number_in, names_in, story_in, call_as, AnswersThere, found_in, clean_sector, image_sector, zero_sector};
ghost use Rattle.bank_core.specs.Story.{Tells, fault_in};
ghost use Rattle.bank_core.specs.View.{ShowsClean};

use crate::bank::{Bank, Fault, FindFault};
use crate::call::{CallKind, Damage, MemCall};
use crate::device::{MOST_SECTORS, MemDevice};
use crate::moment::{Moment, Showing, show_from};
use crate::plan::Plan;
use mp_base::{MemFault, Name};
use std::alloc::Global;

/// The most devices of a bank.
pub const MOST_DEVICES: usize = 64;

/// A bank in memory of at most 64 devices, each with a name, and numbered from 0 in the order in which
/// they were added. It keeps a list of its calls, and finds each sector by going through the list.
///
/// It tells its story until memory for the list is refused. That call fails, and from then on the bank
/// tells nothing.
#[derive(Drop)]
pub struct MemBank {
    pub(crate) alloc: Global,
    pub(crate) devices: Vec<MemDevice>,
    pub(crate) calls: Vec<MemCall>,
    pub(crate) faults: [u64; 64],
    pub(crate) tells: bool,
    pub(crate) plan: Plan,
    ghost few: { length devices.items ≤ 64 },
    ghost inside: { list_all (is_inside (size_in devices.items)) calls.items ≡ true },
}

impl MemBank {
    ghost use Rattle.bank_core.specs.MemBank.{bank_size, bank_names, bank_devices, bank_calls, call_list, bank_told, bank_faults, IsUnchanged, IsAdded};

    /// A bank of no devices.
    pub fn new(alloc: Global) -> MemBank
        ensures devices { bank_devices result ≡ 0 }
        ensures names { bank_names result ≡ [] }
        ensures calls { bank_calls result ≡ 0 }
        ensures told { bank_told result ≡ Some (story_in [] []) }
    {
        MemBank::of(alloc, Vec::new(alloc))
    }

    /// A bank of these devices.
    pub(crate) fn of(alloc: Global, devices: Vec<MemDevice>) -> MemBank
        requires { length devices.items ≤ 64 }
        ensures devices { result.devices.items ≡ devices.items }
        ensures calls { result.calls.items ≡ [] }
        ensures tells { result.tells ≡ true }
    {
        MemBank {
            alloc,
            devices,
            calls: Vec::new(alloc),
            faults: [0; 64],
            tells: true,
            plan: Plan::new(alloc),
        }
    }

    /// How many devices it has.
    pub fn device_count(&self) -> usize
        ensures { result ≡ bank_devices self.now }
    {
        self.devices.len()
    }

    /// How many calls were made.
    pub fn place(&self) -> u64
        ensures { result ≡ bank_calls self.now }
    {
        self.calls.len() as u64
    }

    /// Whether it tells its story still: until memory for a call was refused.
    pub fn tells(&self) -> bool
        ensures { result ≡ is_some (bank_told self.now) }
    {
        self.tells
    }

    /// The calls that were made, the oldest first.
    pub fn calls(&self) -> &[MemCall]
        ensures { result.now ≡ call_list self.now }
    {
        &self.calls
    }

    /// How often a call on the device of this number failed.
    pub fn fault_count(&self, dev: u32) -> u64
        requires { dev < 64 }
        ensures { result ≡ bank_faults self.now dev }
    {
        self.faults[dev as usize]
    }

    /// Adds a device of zeros. Devices are added before the first call. A look-up of a name that two
    /// devices have finds the first one.
    pub fn add(&mut self, name: Name, sectors: u64) -> Result<(), MemFault>
        requires room { bank_devices self.old < 64 }
        requires early { bank_calls self.old ≡ 0 }
        requires some { 0 < sectors }
        requires most { sectors ≤ MOST_SECTORS }
        ensures ok { OnOk result (IsAdded self.old self.new name sectors (λ s. clean_sector zero_sector)) }
        ensures err { OnErr result (IsUnchanged self.old self.new) }
    {
        let first = Vec::new(self.alloc);
        let damage = Vec::new(self.alloc);
        self.add_image(name, sectors, first, damage)
    }

    /// Adds a device that begins with these bytes, and has zeros at each sector that they don't fill.
    /// What of the damage lies on it is there from the start.
    pub fn add_image(
        &mut self,
        name: Name,
        sectors: u64,
        first: Vec<u8>,
        damage: Vec<Damage>,
    ) -> Result<(), MemFault>
        requires room { bank_devices self.old < 64 }
        requires early { bank_calls self.old ≡ 0 }
        requires some { 0 < sectors }
        requires most { sectors ≤ MOST_SECTORS }
        ensures ok { OnOk result (IsAdded self.old self.new name sectors
            (image_sector sectors first.items damage.items (bank_devices self.old))) }
        ensures err { OnErr result (IsUnchanged self.old self.new) }
    {
        self.push_device(MemDevice {
            name,
            sectors,
            first,
            damage,
        })
    }

    fn push_device(&mut self, device: MemDevice) -> Result<(), MemFault>
        requires room { bank_devices self.old < 64 }
        requires early { bank_calls self.old ≡ 0 }
        ensures ok { OnOk result (IsAdded self.old self.new device.name device.sectors
            (image_sector device.sectors device.first.items device.damage.items (bank_devices self.old))) }
        ensures err { OnErr result (IsUnchanged self.old self.new) }
    {
        self.devices.push(device)?;
        Ok(())
    }

    /// From now on the calls on a device at the places `from..=to` of the list fail. Places are counted
    /// from 0 over all devices. Of two plans for a call the one that was made first holds.
    pub fn fail(&mut self, dev: u32, from: u64, to: u64, fault: Fault) -> Result<(), MemFault>
        ensures { IsUnchanged self.old self.new }
    {
        self.plan.fail(dev, from, to, fault)
    }

    /// With the call at this place of the list, and before its effect, the damage comes. Damage that
    /// lies beyond its device's end is none.
    pub fn damage(&mut self, place: u64, damage: Damage) -> Result<(), MemFault>
        ensures { IsUnchanged self.old self.new }
    {
        self.plan.damage(place, damage)
    }

    /// A call that gives no bytes, as it is planned.
    fn coming(&self, kind: CallKind, dev: u32, at: u64, bytes: &[u8]) -> Result<MemCall, MemFault>
        ensures kind { IfOk result (λ call. call.kind ≡ kind) }
        ensures dev { IfOk result (λ call. call.dev ≡ dev) }
        ensures at { IfOk result (λ call. call.at ≡ at) }
        ensures bytes { IfOk result (λ call. call.bytes.items ≡ bytes.now) }
    {
        Ok(MemCall {
            kind,
            dev,
            at,
            bytes: Vec::from_slice(self.alloc, bytes)?,
            fault: self.plan.fault_at(dev, self.place()),
            damage: self.plan.damage_at(self.alloc, self.place())?,
        })
    }

    /// A read as it is planned, with the bytes that it gives.
    fn coming_read(&self, dev: u32, at: u64, out: &mut [u8]) -> Result<MemCall, MemFault>
        requires whole { length out.old % sector_size ≡ 0 }
        requires device { 0 < bank_size self.now dev }
        requires inside { at + sectors_in out.old ≤ bank_size self.now dev }
        ensures kind { IfOk result (λ call. call.kind ≡ CallKind.Read) }
        ensures dev { IfOk result (λ call. call.dev ≡ dev) }
        ensures at { IfOk result (λ call. call.at ≡ at) }
        ensures bytes { IfOk result (λ call. call.bytes.items ≡ out.new) }
        ensures answers { IfOk result (λ call. AnswersThere self.now.devices.items self.now.calls.items call) }
    {
        let fault = self.plan.fault_at(dev, self.place());
        let damage = self.plan.damage_at(self.alloc, self.place())?;
        self.show_unless(fault, dev, at, &damage, out);
        let bytes = Vec::from_slice(self.alloc, out)?;
        Ok(MemCall {
            kind: CallKind::Read,
            dev,
            at,
            bytes,
            fault,
            damage,
        })
    }

    /// Shows what a read gives, unless it is planned to fail.
    fn show_unless(
        &self,
        fault: Option<Fault>,
        dev: u32,
        at: u64,
        damage: &[Damage],
        out: &mut [u8],
    )
        requires device { 0 < bank_size self.now dev }
        requires inside { at + sectors_in out.old ≤ bank_size self.now dev }
        ensures { fault ≡ None → ShowsClean (λ i. found_in self.now.devices.items self.now.calls.items damage.now dev (at + i))
            (sectors_in out.new) out.new }
    {
        if fault.is_some() {
            return;
        }
        let moment = Moment {
            device: &self.devices[dev as usize],
            dev,
            calls: &self.calls,
            damage,
        };
        show_from(moment, at, Showing::Read, out);
    }
}

impl Bank for MemBank {
    ghost use Rattle.bank_core.specs.MemBank.{bank_view};

    ghost view = { bank_view };

    fn find(&mut self, name: &Name) -> Result<Option<u32>, FindFault> {
        Ok(place_of(&self.devices, name).map(|place| place as u32))
    }

    fn sectors(&self, dev: u32) -> u64 {
        match self.devices.get(dev as usize) {
            Some(device) => device.sectors,
            None => 0,
        }
    }

    fn read(&mut self, dev: u32, at: u64, out: &mut [u8]) -> Result<(), Fault> {
        match self.coming_read(dev, at, out) {
            Ok(call) => self.note(call),
            Err(_) => self.lose(dev),
        }
    }

    fn write(&mut self, dev: u32, at: u64, bytes: &[u8]) -> Result<(), Fault> {
        match self.coming(CallKind::Write, dev, at, bytes) {
            Ok(call) => self.note(call),
            Err(_) => self.lose(dev),
        }
    }

    fn flush(&mut self, dev: u32) -> Result<(), Fault> {
        match self.coming(CallKind::Flush, dev, 0, &[]) {
            Ok(call) => self.note(call),
            Err(_) => self.lose(dev),
        }
    }
}

/// The place of the first device of this name.
fn place_of(devices: &[MemDevice], name: &Name) -> Option<usize>
    ensures { result ≡ number_in devices.now name.now }
{
    devices.iter().position(|device| device.name == *name)
}
