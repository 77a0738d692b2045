//! How a device's file is found by its name, and held.
ghost use Rattle.std.specs.Prelude.{pos, ◌<ℤ◌, IfOk, IfSome};

use crate::file::DeviceFile;
use crate::{FileId, Host, HostFile, Unheld};
use bank_core::{Fault, FindFault};
use mp_base::Name;
use std::alloc::Global;
use std::fs::TryLockError;
use std::io::{self, ErrorKind};

/// The descriptor of the last of the standard streams.
const LAST_STREAM: i32 = 2;

/// The file of this name in the folder, where there is one. A name has no slash and doesn't begin with a
/// dot, so the file lies in the folder, and where a link stands there it is what the link leads to.
pub(crate) fn open<H: Host>(
    host: &H,
    alloc: Global,
    folder: &str,
    name: &Name,
) -> Result<Option<H::File>, FindFault>
    ensures apart { IfOk result (λ found. IfSome found (λ file. IfSome (H.File.raw_fd file) (λ fd. pos 2 <ℤ fd))) }
{
    let path = path_of(alloc, folder, name)?;
    match host.open(path.as_str()) {
        Ok(file) => Ok(Some(above_streams(file).map_err(failed)?)),
        Err(error) if error.kind() == ErrorKind::NotFound => Ok(None),
        Err(error) => Err(failed(error)),
    }
}

/// Which file it is.
pub(crate) fn id_of<F: HostFile>(file: &F) -> Result<FileId, FindFault> {
    file.id().map_err(failed)
}

/// The device in this file, once this program alone holds it.
pub(crate) fn hold<H: Host>(
    host: &H,
    name: &Name,
    file: H::File,
    id: FileId,
) -> Result<DeviceFile<H::File>, FindFault> {
    if let Err(error) = file.try_lock() {
        host.tell(name, &unheld(error));
        return Err(FindFault::Fault(Fault::Failed));
    }
    DeviceFile::new(file, id).map_err(failed)
}

/// The file under a descriptor above those of the standard streams. Where one of these was closed, what
/// is meant for it would else land in a device.
fn above_streams<F: HostFile + Drop>(file: F) -> io::Result<F>
    ensures apart { IfOk result (λ file. IfSome (F.raw_fd file) (λ fd. pos 2 <ℤ fd)) }
{
    if file.as_raw_fd() > LAST_STREAM {
        return Ok(file);
    }
    let again = file.try_clone()?;
    if again.as_raw_fd() > LAST_STREAM {
        return Ok(again);
    }
    Err(ErrorKind::Other.into())
}

fn unheld(error: TryLockError) -> Unheld {
    match error {
        TryLockError::WouldBlock => Unheld::ByAnother,
        TryLockError::Error(error) => Unheld::NoLock(error),
    }
}

fn failed(_error: io::Error) -> FindFault {
    FindFault::Fault(Fault::Failed)
}

fn path_of(alloc: Global, folder: &str, name: &Name) -> Result<String, FindFault> {
    let Ok(word) = str::from_utf8(name.as_bytes()) else {
        return Err(FindFault::Fault(Fault::Failed));
    };
    format!(in alloc; "{folder}/{word}").map_err(|_| FindFault::Memory)
}
