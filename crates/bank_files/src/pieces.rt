//! All of a piece of a file, in whatever pieces the system moves it.
ghost use Rattle.std.specs.Prelude.{◌≡◌, ◌+◌, ◌<◌, ◌≤◌, ◌^◌, length, IfOk, OnOk};
ghost use Rattle.bank_files.specs.Told.{Stands, Touches};

use crate::HostFile;
use bank_core::Fault;
use std::io::ErrorKind;

/// Reads all of `out` from a byte of the file on. At `Err` its bytes mean nothing.
pub(crate) fn read_all<F: HostFile>(file: &mut F, at: u64, out: &mut [u8]) -> Result<(), Fault>
    requires { at + length out.old < 2 ^ 64 }
    ensures given { OnOk result (Stands (F.told file.old) at out.new (length out.new)) }
    ensures same { F.told file.new ≡ F.told file.old }
{
    let mut done = 0;
    for _ in 0..u64::MAX {
        if done >= out.len() {
            return Ok(());
        }
        done += read_piece(file, at + done as u64, &mut out[done..])?;
    }
    Err(Fault::Failed)
}

/// Writes all bytes from a byte of the file on. At `Err` any of them may be written.
pub(crate) fn write_all<F: HostFile>(file: &mut F, at: u64, bytes: &[u8]) -> Result<(), Fault>
    requires { at + length bytes.now < 2 ^ 64 }
    ensures taken { OnOk result (Stands (F.told file.new) at bytes.now (length bytes.now)) }
    ensures others { Touches (F.told file.old) (F.told file.new) at (length bytes.now) }
{
    let mut done = 0;
    for _ in 0..u64::MAX {
        if done >= bytes.len() {
            return Ok(());
        }
        done += write_piece(file, at + done as u64, &bytes[done..])?;
    }
    Err(Fault::Failed)
}

// Reads a front of `out`, and nothing where a signal interrupts the call.
fn read_piece<F: HostFile>(file: &mut F, at: u64, out: &mut [u8]) -> Result<usize, Fault>
    ensures bound { IfOk result (λ n. n ≤ length out.new) }
    ensures given { IfOk result (λ n. Stands (F.told file.old) at out.new n) }
    ensures same { F.told file.new ≡ F.told file.old }
{
    match file.read_at(at, out) {
        Ok(0) => Err(Fault::Gone),
        Ok(n) => Ok(n),
        Err(error) if error.kind() == ErrorKind::Interrupted => Ok(0),
        Err(_) => Err(Fault::Failed),
    }
}

// Writes a front of the bytes, and nothing where a signal interrupts the call.
fn write_piece<F: HostFile>(file: &mut F, at: u64, bytes: &[u8]) -> Result<usize, Fault>
    ensures bound { IfOk result (λ n. n ≤ length bytes.now) }
    ensures taken { IfOk result (λ n. Stands (F.told file.new) at bytes.now n) }
    ensures others { Touches (F.told file.old) (F.told file.new) at (length bytes.now) }
{
    match file.write_at(at, bytes) {
        Ok(0) => Err(Fault::Failed),
        Ok(n) => Ok(n),
        Err(error) if error.kind() == ErrorKind::Interrupted => Ok(0),
        Err(_) => Err(Fault::Failed),
    }
}
