//! The file under a device, and what is asked of the system about it: each function is one of its calls.
ghost use Rattle.std.specs.Prelude.{◌≡◌, ◌≤◌, length, IfOk, OnOk};
ghost use Rattle.std.specs.Io.{ReadsAtMost, WritesAtMost};
ghost use Rattle.bank_files.specs.Told.{Told, Stands, Touches, IsStable, HoldsSame};

use std::fs::{File, TryLockError};
use std::io::{self, Seek, SeekFrom};
use std::os::fd::AsRawFd;
use std::os::unix::fs::{FileExt, MetadataExt};

/// Which file it is, whatever names it has: the file system's number and the file's number in it.
#[derive(Clone, Copy, Debug, PartialEq, Eq)]
pub struct FileId {
    pub dev: u64,
    pub ino: u64,
}

/// A file that is open to read and to write.
pub trait HostFile: AsRawFd {
    /// What it holds, where it tells.
    ghost told: { Self → Told };

    /// Which file it is.
    fn id(&self) -> io::Result<FileId>;

    /// How many names the file has in its file system.
    fn links(&self) -> io::Result<u64>;

    /// Takes the lock on the whole file that no two openings of it have at once. It lasts until the file
    /// and its clones are closed.
    fn try_lock(&self) -> Result<(), TryLockError>;

    /// The same opening, under another descriptor.
    fn try_clone(&self) -> io::Result<Self>
    where
        Self: Sized;

    /// How many bytes the file has.
    fn end(&mut self) -> io::Result<u64>
        ensures same { told self.new ≡ told self.old };

    /// Reads a front of `out` from a byte of the file on, and answers how much: 0 at the file's end.
    fn read_at(&mut self, at: u64, out: &mut [u8]) -> io::Result<usize>
        ensures bound { ReadsAtMost result out.new }
        ensures given { IfOk result (λ n. Stands (told self.old) at out.new n) }
        ensures same { told self.new ≡ told self.old };

    /// Writes a front of the bytes from a byte of the file on, and answers how much. At `Err` any of
    /// them may be written.
    fn write_at(&mut self, at: u64, bytes: &[u8]) -> io::Result<usize>
        ensures bound { WritesAtMost result bytes.now }
        ensures taken { IfOk result (λ n. Stands (told self.new) at bytes.now n) }
        ensures others { Touches (told self.old) (told self.new) at (length bytes.now) };

    /// Makes what the file holds stable.
    fn sync(&mut self) -> io::Result<()>
        ensures stable { OnOk result (IsStable (told self.new)) }
        ensures same { HoldsSame (told self.old) (told self.new) };
}

/// A file of the system, which tells nothing: others may change it.
impl HostFile for File {
    ghost use Rattle.std.specs.Prelude.{None};
    ghost use Rattle.bank_files.specs.Told.{nothing};

    ghost told = { λ file. nothing };

    fn id(&self) -> io::Result<FileId> {
        let found = self.metadata()?;
        Ok(FileId {
            dev: found.dev(),
            ino: found.ino(),
        })
    }

    fn links(&self) -> io::Result<u64> {
        Ok(self.metadata()?.nlink())
    }

    fn try_lock(&self) -> Result<(), TryLockError> {
        File::try_lock(self)
    }

    fn try_clone(&self) -> io::Result<File> {
        File::try_clone(self)
    }

    fn end(&mut self) -> io::Result<u64> {
        self.seek(SeekFrom::End(0))
    }

    fn read_at(&mut self, at: u64, out: &mut [u8]) -> io::Result<usize> {
        FileExt::read_at(self, out, at)
    }

    fn write_at(&mut self, at: u64, bytes: &[u8]) -> io::Result<usize> {
        FileExt::write_at(self, bytes, at)
    }

    fn sync(&mut self) -> io::Result<()> {
        self.sync_data()
    }
}
