//! The files of a bank's devices, by their numbers.
ghost use Rattle.std.specs.Prelude.{◌<◌, ◌^◌, ◌*◌, ◌+◌, length, OnOk};
ghost use Rattle.bank_core.specs.Disk.{sector_size};
ghost use Rattle.bank_files.specs.Told.{IsOpen, IsStable, Stands};

use crate::file::DeviceFile;
use crate::{FileId, HostFile};
use bank_core::Fault;
use mp_base::MemFault;
use std::alloc::Global;

/// The files, of which some are open. A call on another one fails.
#[derive(Drop)]
pub(crate) struct DeviceFiles<F> {
    files: Vec<Option<DeviceFile<F>>>,
}

impl<F: HostFile + Drop> DeviceFiles<F> {
    /// So many files, none of which is open.
    pub(crate) fn new(alloc: Global, count: usize) -> Result<DeviceFiles<F>, MemFault> {
        let mut files = Vec::new(alloc);
        for _ in 0..count {
            files.push(None)?;
        }
        Ok(DeviceFiles { files })
    }

    /// Whether one of the open files is this one.
    pub(crate) fn have(&self, id: FileId) -> bool {
        self.files.iter().flatten().any(|file| file.id() == id)
    }

    pub(crate) fn put(&mut self, place: usize, file: DeviceFile<F>) {
        if let Some(kept) = self.files.get_mut(place) {
            *kept = Some(file);
        }
    }

    pub(crate) fn read(&mut self, dev: u32, at: u64, out: &mut [u8]) -> Result<(), Fault>
        requires { at * sector_size + length out.old < 2 ^ 64 }
        ensures given { OnOk result (IsOpen self.new.files.items dev (λ file. Stands (F.told file.file) (at * sector_size) out.new (length out.new))) }
    {
        let place = dev as usize;
        if place >= self.files.len() {
            return Err(Fault::Failed);
        }
        match &mut self.files[place] {
            Some(file) => file.read(at, out),
            None => Err(Fault::Failed),
        }
    }

    pub(crate) fn write(&mut self, dev: u32, at: u64, bytes: &[u8]) -> Result<(), Fault>
        requires { at * sector_size + length bytes.now < 2 ^ 64 }
        ensures taken { OnOk result (IsOpen self.new.files.items dev (λ file. Stands (F.told file.file) (at * sector_size) bytes.now (length bytes.now))) }
    {
        let place = dev as usize;
        if place >= self.files.len() {
            return Err(Fault::Failed);
        }
        match &mut self.files[place] {
            Some(file) => file.write(at, bytes),
            None => Err(Fault::Failed),
        }
    }

    pub(crate) fn flush(&mut self, dev: u32) -> Result<(), Fault>
        ensures stable { OnOk result (IsOpen self.new.files.items dev (λ file. IsStable (F.told file.file))) }
    {
        let place = dev as usize;
        if place >= self.files.len() {
            return Err(Fault::Failed);
        }
        match &mut self.files[place] {
            Some(file) => file.flush(),
            None => Err(Fault::Failed),
        }
    }
}
