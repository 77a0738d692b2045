//! What a bank in files asks of the program around it.
use crate::HostFile;
use mp_base::Name;
use std::io;

/// Why a device's file isn't used although it is there.
#[derive(Drop)]
pub enum Unheld {
    /// Another program holds it.
    ByAnother,
    /// The system can't lock it.
    NoLock(io::Error),
}

/// Where the files of a bank's devices are opened.
pub trait Host {
    type File: HostFile + Drop;

    /// The file of this path, open to read and to write.
    fn open(&self, path: &str) -> io::Result<Self::File>;

    /// Tells whoever runs the program that a device isn't found, and why.
    fn tell(&self, name: &Name, why: &Unheld);
}
