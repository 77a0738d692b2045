//! The bank of the devices in a folder.
ghost use Rattle.std.specs.Prelude.{◌≡◌, ◌≢◌, ℕ, ◌<◌, ◌≤◌, ◌^◌, List, Some, IfOk, OnOk, OnErr, IfSome, length, slice_index};
ghost use Rattle.mp_base.specs.Outside.{Rose};
ghost use Rattle.bank_files.specs.Asked.{place_in};

use crate::file::DeviceFile;
use crate::files::DeviceFiles;
use crate::{Host, HostFile, opening};
use bank_core::{Bank, Fault, FindFault};
use mp_base::{MemFault, Name};
use std::alloc::Global;

/// The most names that are asked for.
const MOST_NAMES: usize = 64;

/// A host's devices in the files of a folder. A device has the name of its file, and the number that its
/// name has in the order in which names are asked for first, also where the file was missing then. It has
/// so many sectors as its file has whole ones when it is found, at most 1,048,576; a file that has none is
/// no device. A file is opened once.
///
/// What a file holds isn't told. A call fails where one of the system's calls for it failed or ended
/// early, and where the file has vanished or shrunk. Once a flush of a device failed, each later one does.
#[derive(Drop)]
pub struct FileBank<'h, H: Host> {
    host: &'h H,
    alloc: Global,
    folder: String,
    asked: Vec<Name>,
    sizes: [u32; 64],
    files: DeviceFiles<H::File>,
    faults: [u64; 64],
    lookup_faults: u64,
    ghost few: { length asked.items ≤ 64 },
}

impl<'h, H: Host> FileBank<'h, H> {
    /// The bank of the devices in this folder, none of which is asked for yet.
    pub fn new(host: &'h H, alloc: Global, folder: String) -> Result<FileBank<'h, H>, MemFault> {
        let files = DeviceFiles::new(alloc, MOST_NAMES)?;
        Ok(FileBank {
            host,
            alloc,
            folder,
            asked: Vec::new(alloc),
            sizes: [0; 64],
            files,
            faults: [0; 64],
            lookup_faults: 0,
        })
    }

    /// How often a call on the device of this number failed.
    pub fn fault_count(&self, dev: u32) -> u64
        requires { dev < 64 }
        ensures { result ≡ slice_index self.now.faults dev }
    {
        self.faults[dev as usize]
    }

    /// How often a look-up failed.
    pub fn lookup_fault_count(&self) -> u64
        ensures { result ≡ self.now.lookup_faults }
    {
        self.lookup_faults
    }

    /// The place of this name, which it gets where it has none and there is one left.
    fn seat(&mut self, name: &Name) -> Result<Option<usize>, MemFault>
        ensures place { IfOk result (λ seat. seat ≡ place_in self.new.asked.items name.now) }
        ensures limit { IfOk result (λ seat. IfSome seat (λ place. place < 64)) }
        ensures stays { (other : List ℕ) (place : ℕ) → place_in self.old.asked.items other ≡ Some place
            → place_in self.new.asked.items other ≡ Some place }
        ensures sizes { self.new.sizes ≡ self.old.sizes }
        ensures faults { self.new.faults ≡ self.old.faults }
        ensures lookups { self.new.lookup_faults ≡ self.old.lookup_faults }
    {
        if let Some(place) = place_of(&self.asked, name) {
            return Ok(Some(place));
        }
        let place = self.asked.len();
        if place >= MOST_NAMES {
            return Ok(None);
        }
        self.asked.push(name.copy(self.alloc)?)?;
        Ok(Some(place))
    }

    /// The device of this name, where its file is there and is no other device's, and this program alone
    /// holds it.
    fn open(&self, name: &Name) -> Result<Option<DeviceFile<H::File>>, FindFault> {
        let folder = self.folder.as_str();
        let Some(file) = opening::open(self.host, self.alloc, folder, name)? else {
            return Ok(None);
        };
        let id = opening::id_of(&file)?;
        if self.files.have(id) {
            return Ok(None);
        }
        Ok(Some(opening::hold(self.host, name, file, id)?))
    }

    /// Puts a file at the place of its name.
    fn keep(&mut self, place: usize, file: DeviceFile<H::File>)
        requires { place < 64 }
        ensures asked { self.new.asked ≡ self.old.asked }
        ensures size { slice_index self.new.sizes place ≡ file.sectors }
        ensures others { (d : ℕ) → d ≢ place → slice_index self.new.sizes d ≡ slice_index self.old.sizes d }
        ensures faults { self.new.faults ≡ self.old.faults }
        ensures lookups { self.new.lookup_faults ≡ self.old.lookup_faults }
    {
        self.sizes[place] = file.sectors();
        self.files.put(place, file);
    }

    /// No device has 2^32 sectors, as a fact for a caller's proof.
    fn is_short(&self, dev: u32)
        requires { dev < 64 }
        ensures { slice_index self.now.sizes dev < 2 ^ 32 }
    {
        let _sectors = self.sizes[dev as usize];
    }

    /// Counts a call on the device that failed.
    fn count(&mut self, dev: u32, outcome: Result<(), Fault>) -> Result<(), Fault>
        requires { dev < 64 }
        ensures result { result ≡ outcome }
        ensures asked { self.new.asked ≡ self.old.asked }
        ensures sizes { self.new.sizes ≡ self.old.sizes }
        ensures lookups { self.new.lookup_faults ≡ self.old.lookup_faults }
        ensures counts { (d : ℕ) → slice_index self.old.faults d ≤ slice_index self.new.faults d }
        ensures cause { OnErr result (Rose (slice_index self.old.faults dev) (slice_index self.new.faults dev)) }
        ensures still { OnOk result (self.new.faults ≡ self.old.faults) }
        ensures others { (d : ℕ) → d ≢ dev → slice_index self.new.faults d ≡ slice_index self.old.faults d }
    {
        if outcome.is_err() {
            self.faults[dev as usize] = self.faults[dev as usize].saturating_add(1);
        }
        outcome
    }

    /// Counts a look-up that failed. One that only had no memory is no fault.
    fn count_lookup(&mut self, fault: FindFault)
        ensures asked { self.new.asked ≡ self.old.asked }
        ensures sizes { self.new.sizes ≡ self.old.sizes }
        ensures faults { self.new.faults ≡ self.old.faults }
        ensures counts { self.old.lookup_faults ≤ self.new.lookup_faults }
        ensures cause { (why : Fault) → fault ≡ FindFault.Fault why → Rose self.old.lookup_faults self.new.lookup_faults }
    {
        if let FindFault::Fault(_) = fault {
            self.lookup_faults = self.lookup_faults.saturating_add(1);
        }
    }
}

impl<'h, H: Host> Bank for FileBank<'h, H> {
    ghost use Rattle.bank_files.specs.Asked.{view_of};

    ghost view = { λ bank. view_of bank.asked.items bank.sizes bank.faults bank.lookup_faults };

    fn find(&mut self, name: &Name) -> Result<Option<u32>, FindFault> {
        let Some(place) = self.seat(name).map_err(|_| FindFault::Memory)? else {
            return Ok(None);
        };
        if self.sizes[place] > 0 {
            return Ok(Some(place as u32));
        }
        match self.open(name) {
            Ok(Some(file)) if file.sectors() > 0 => {
                self.keep(place, file);
                Ok(Some(place as u32))
            }
            Ok(_) => Ok(None),
            Err(fault) => {
                self.count_lookup(fault);
                Err(fault)
            }
        }
    }

    fn sectors(&self, dev: u32) -> u64 {
        match self.sizes.get(dev as usize) {
            Some(sectors) => u64::from(*sectors),
            None => 0,
        }
    }

    fn read(&mut self, dev: u32, at: u64, out: &mut [u8]) -> Result<(), Fault> {
        self.is_short(dev);
        let outcome = self.files.read(dev, at, out);
        self.count(dev, outcome)
    }

    fn write(&mut self, dev: u32, at: u64, bytes: &[u8]) -> Result<(), Fault> {
        self.is_short(dev);
        let outcome = self.files.write(dev, at, bytes);
        self.count(dev, outcome)
    }

    fn flush(&mut self, dev: u32) -> Result<(), Fault> {
        let outcome = self.files.flush(dev);
        self.count(dev, outcome)
    }
}

/// The place of this name among those that were asked for.
fn place_of(asked: &[Name], name: &Name) -> Option<usize>
    ensures { result ≡ place_in asked.now name.now }
{
    asked.iter().position(|other| *other == *name)
}
