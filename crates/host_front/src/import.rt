//! The line `import`.
ghost use Rattle.std.specs.Prelude.{◌≡◌, ℕ, ◌+◌, ◌<◌, ◌≤◌, nat_le, if◌then◌else◌, IfOk, None};
ghost use Rattle.host_machine.specs.Devices.{seat_of};

use crate::{Host, HostDevice};
use bank_core::Bank;
use config_codec::Config;
use mp_base::{Group, MemFault, Name, Refusal};
use pool_core::{Pool, find_members, seek};
use pool_wire::Reply;

/// No number from here on is drawn.
const LAST_NUMBER: u64 = (1 << 62) - 64;

/// The sectors of a device that aren't data sectors: those of its labels.
const LABEL_SECTORS: u64 = 256;

impl Host {
    ghost use Rattle.std.specs.Prelude.{Some, List, Option, IfSome, OnErr};
    ghost use Rattle.pool_wire.specs.declared.request.Request.TheVariants.{Import};
    ghost use Rattle.label_store.specs.Newest.{ReadsOnly};
    ghost use Rattle.config_codec.specs.Fields.{config_fields};
    ghost use Rattle.config_codec.specs.Reading.{config_in};
    ghost use Rattle.config_codec.specs.Validity.{IsValid};
    ghost use Rattle.pool_core.specs.Done.{Seeks};
    ghost use Rattle.pool_core.specs.State.{last_number};
    ghost use Rattle.host_machine.specs.Devices.{all_handed};
    ghost use Rattle.host_machine.specs.Machine.{HostState, open_seats};
    ghost use Rattle.host_front.specs.Importing.{AreRooms, OpensFound, OpensThere};
    ghost use Rattle.host_front.specs.Standing.{Keeps, Stands, HostIsSeated};
    ghost use Rattle.host_front.specs.Session.{Answers};

    pub(crate) fn import<B: Bank>(&mut self, bank: &mut B, name: &Name) -> Reply
        requires seated { HostIsSeated (B.view bank.old).size self.old }
        ensures size { (d : ℕ) → (B.view bank.new).size d ≡ (B.view bank.old).size d }
        ensures numbers { (name : List ℕ) → (B.view bank.new).number_of name ≡ (B.view bank.old).number_of name }
        ensures lookups { (B.view bank.new).lookup_faults ≡ (B.view bank.old).lookup_faults }
        ensures answers { (h : HostState) (second : ℕ) → Stands (B.view bank.old).size self.old h → Answers h (Some (Import name.now)) second
            (B.view bank.old).told (B.view bank.new).told (B.view bank.old).faults (B.view bank.new).faults (B.view bank.new).size self.new result }
    {
        match self.newest_config(bank, name) {
            Ok(Some(config)) => self.open_found(bank, config),
            Ok(None) => Reply::Refused(Refusal::NoRecord),
            Err(MemFault) => Reply::Refused(Refusal::Memory),
        }
    }

    // The configuration of the newest record of the name, on all devices that are handed to an opening.
    fn newest_config<B: Bank>(&self, bank: &mut B, name: &Name) -> Result<Option<Config>, MemFault>
        requires seated { HostIsSeated (B.view bank.old).size self.now }
        ensures size { (d : ℕ) → (B.view bank.new).size d ≡ (B.view bank.old).size d }
        ensures numbers { (name : List ℕ) → (B.view bank.new).number_of name ≡ (B.view bank.old).number_of name }
        ensures lookups { (B.view bank.new).lookup_faults ≡ (B.view bank.old).lookup_faults }
        ensures valid { IfOk result (λ found. IfSome found (λ config. IsValid (config_fields config))) }
        ensures seeks { IfOk result (λ found. Seeks (B.view bank.old).size (all_handed self.now.table.items) name.now
            (B.view bank.old).told (B.view bank.new).told (B.view bank.old).faults (B.view bank.new).faults found) }
        ensures reads { OnErr result (ReadsOnly (B.view bank.old) (B.view bank.new)) }
    {
        let devs = self.handed_devices()?;
        seek(self.alloc, bank, &devs, name)
    }

    // The numbers of these devices, in host order.
    fn handed_devices(&self) -> Result<Vec<u32>, MemFault>
        ensures { IfOk result (λ devs. devs.items ≡ all_handed self.now.table.items) }
    {
        let mut devs = Vec::new(self.alloc);
        for device in &self.table {
            if let Some(dev) = device.handed() {
                devs.push(dev)?;
            }
        }
        Ok(devs)
    }

    // Opens the pool of the configuration that was found.
    fn open_found<B: Bank>(&mut self, bank: &mut B, config: Config) -> Reply
        requires seated { HostIsSeated (B.view bank.old).size self.old }
        requires valid { IsValid (config_fields config) }
        ensures size { (d : ℕ) → (B.view bank.new).size d ≡ (B.view bank.old).size d }
        ensures numbers { (name : List ℕ) → (B.view bank.new).number_of name ≡ (B.view bank.old).number_of name }
        ensures lookups { (B.view bank.new).lookup_faults ≡ (B.view bank.old).lookup_faults }
        ensures opens { (h : HostState) (bytes : List ℕ) → Stands (B.view bank.old).size self.old h → config_in bytes ≡ Some (config_fields config)
            → OpensFound h bytes (config_fields config) (B.view bank.old).told (B.view bank.new).told (B.view bank.old).faults (B.view bank.new).faults (B.view bank.new).size self.new result }
    {
        let number = config.number.0;
        if number >= LAST_NUMBER {
            return Reply::Refused(Refusal::TreeFull {
                limit: LAST_NUMBER,
                count: number + 1,
            });
        }
        if self.pool.is_some() {
            return Reply::Refused(Refusal::NotBuilt);
        }
        let seats = self.open_seats(&config);
        let found = find_members(bank, &config, seats);
        self.open_on(bank, config, found)
    }

    // The devices of the pool's leaves, by their names, where they were found and have room.
    fn open_seats(&self, config: &Config) -> (Option<u32>, Option<u32>)
        requires { IsValid (config_fields config.now) }
        ensures is { (h : HostState) (size : ℕ → ℕ) → Keeps size self.now h → result ≡ open_seats h (config_fields config.now) }
        ensures two { (size : ℕ → ℕ) → HostIsSeated size self.now → AreRooms size config.now.sectors result }
    {
        let first = seat_of(&self.table, &config.first.name, config.sectors);
        let second = seat_of(&self.table, &config.second.name, config.sectors);
        (first, second)
    }

    // Opens the pool on the devices whose identities were found: where a device call fails, or there is none, no pool is
    // open.
    fn open_on<B: Bank>(
        &mut self,
        bank: &mut B,
        config: Config,
        found: (Option<u32>, Option<u32>),
    ) -> Reply
        requires seated { HostIsSeated (B.view bank.old).size self.old }
        requires closed { self.old.pool ≡ None }
        requires valid { IsValid (config_fields config) }
        requires number { config.number.0 < last_number }
        requires two { AreRooms (B.view bank.old).size config.sectors found }
        ensures size { (d : ℕ) → (B.view bank.new).size d ≡ (B.view bank.old).size d }
        ensures numbers { (name : List ℕ) → (B.view bank.new).number_of name ≡ (B.view bank.old).number_of name }
        ensures lookups { (B.view bank.new).lookup_faults ≡ (B.view bank.old).lookup_faults }
        ensures opens { (h : HostState) (bytes : List ℕ) → Stands (B.view bank.old).size self.old h → config_in bytes ≡ Some (config_fields config)
            → OpensThere h bytes (config_fields config) found (B.view bank.old).told (B.view bank.new).told (B.view bank.old).faults (B.view bank.new).faults (B.view bank.new).size self.new result }
    {
        let number = config.number.0 + 1;
        match Pool::open(self.alloc, bank, config, found) {
            Ok(pool) => {
                self.pool = Some(pool);
                Reply::Committed(Group(number))
            }
            Err(refusal) => Reply::Refused(refusal),
        }
    }
}

// The number of the device of this name, if it has room for so many data sectors.
fn seat_of(table: &[HostDevice], name: &Name, sectors: u64) -> Option<u32>
    requires { sectors ≤ 1048320 }
    ensures { result ≡ seat_of name.now sectors table.now }
{
    for device in table {
        if &device.name == name {
            return roomy(device, sectors);
        }
    }
    None
}

fn roomy(device: &HostDevice, sectors: u64) -> Option<u32>
    requires { sectors ≤ 1048320 }
    ensures { result ≡ (if nat_le (sectors + 256) device.now.sectors then device.now.dev else None) }
{
    if sectors + LABEL_SECTORS <= device.sectors {
        device.dev
    } else {
        None
    }
}
