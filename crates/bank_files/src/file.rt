//! The file of a device: a few calls of the system, and what their answers mean for a device.
ghost use Rattle.std.specs.Prelude.{◌≡◌, ◌*◌, ◌/◌, ◌+◌, ◌<◌, ◌^◌, min, length, Some, Err, IfOk, OnOk};
ghost use Rattle.bank_core.specs.Disk.{sector_size};
ghost use Rattle.bank_files.specs.Told.{Stands, Touches, IsStable, HoldsSame};

use crate::{FileId, HostFile, pieces};
use bank_core::{Fault, MOST_SECTORS, SECTOR_BYTES};
use std::io;

/// A device's file, open to read and to write.
#[derive(Drop)]
pub(crate) struct DeviceFile<F> {
    file: F,
    id: FileId,
    sectors: u32,
    lost: Option<Fault>,
}

impl<F: HostFile + Drop> DeviceFile<F> {
    /// The device in this file, which has so many sectors as fit into the file whole.
    pub(crate) fn new(mut file: F, id: FileId) -> io::Result<DeviceFile<F>> {
        let sectors = whole_sectors(file.end()?);
        Ok(DeviceFile {
            file,
            id,
            sectors,
            lost: None,
        })
    }

    pub(crate) fn sectors(&self) -> u32
        ensures { result ≡ self.now.sectors }
    {
        self.sectors
    }

    /// Which file it is.
    pub(crate) fn id(&self) -> FileId {
        self.id
    }

    /// Reads all of `out` from a sector on. At `Err` its bytes mean nothing.
    #[tactic(auto, unfolding(bank_core::specs::Disk::sector_size))]
    pub(crate) fn read(&mut self, at: u64, out: &mut [u8]) -> Result<(), Fault>
        requires { at * sector_size + length out.old < 2 ^ 64 }
        ensures given { OnOk result (Stands (F.told self.old.file) (at * sector_size) out.new (length out.new)) }
        ensures same { F.told self.new.file ≡ F.told self.old.file }
    {
        pieces::read_all(&mut self.file, at * SECTOR_BYTES as u64, out)
    }

    /// Writes all bytes from a sector on. At `Err` any of them may be written.
    #[tactic(auto, unfolding(bank_core::specs::Disk::sector_size))]
    pub(crate) fn write(&mut self, at: u64, bytes: &[u8]) -> Result<(), Fault>
        requires { at * sector_size + length bytes.now < 2 ^ 64 }
        ensures taken { OnOk result (Stands (F.told self.new.file) (at * sector_size) bytes.now (length bytes.now)) }
        ensures others { Touches (F.told self.old.file) (F.told self.new.file) (at * sector_size) (length bytes.now) }
    {
        // A file that has shrunk would take the bytes behind its end, and show zeros before them.
        self.is_long()?;
        pieces::write_all(&mut self.file, at * SECTOR_BYTES as u64, bytes)
    }

    /// Has the system bring to the device what it keeps of it. Once this failed, it fails for good: what
    /// could not be written may be forgotten, and the system's next sync would answer `Ok` without it.
    pub(crate) fn flush(&mut self) -> Result<(), Fault>
        ensures stable { OnOk result (IsStable (F.told self.new.file)) }
        ensures same { HoldsSame (F.told self.old.file) (F.told self.new.file) }
        ensures lasts { (fault : Fault) → self.old.lost ≡ Some fault → result ≡ Err fault }
        ensures lost { (fault : Fault) → result ≡ Err fault → self.new.lost ≡ Some fault }
    {
        if let Some(fault) = self.lost {
            return Err(fault);
        }
        let outcome = self.sync();
        if let Err(fault) = outcome {
            self.lost = Some(fault);
        }
        outcome
    }

    fn sync(&mut self) -> Result<(), Fault>
        ensures stable { OnOk result (IsStable (F.told self.new.file)) }
        ensures same { HoldsSame (F.told self.old.file) (F.told self.new.file) }
    {
        self.is_long()?;
        self.is_named()?;
        self.file.sync().map_err(|_| Fault::Failed)
    }

    /// `Ok` where the file still has all the device's sectors.
    fn is_long(&mut self) -> Result<(), Fault>
        ensures same { F.told self.new.file ≡ F.told self.old.file }
    {
        let bytes = self.file.end().map_err(|_| Fault::Failed)?;
        if whole_sectors(bytes) < self.sectors {
            return Err(Fault::Gone);
        }
        Ok(())
    }

    /// `Ok` where the file still has a name.
    fn is_named(&self) -> Result<(), Fault> {
        let links = self.file.links().map_err(|_| Fault::Failed)?;
        if links == 0 {
            return Err(Fault::Gone);
        }
        Ok(())
    }
}

/// How many sectors a device of so many bytes has.
#[tactic(auto, unfolding(bank_core::specs::Disk::sector_size))]
fn whole_sectors(bytes: u64) -> u32
    ensures { result ≡ min (bytes / sector_size) 1048576 }
{
    (bytes / SECTOR_BYTES as u64).min(MOST_SECTORS) as u32
}
