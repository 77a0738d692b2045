//! The devices of a host that no file describes: the files of one folder.
use bank_files::{FileBank, Host, Unheld};
use mp_base::{MemFault, Name};
use std::alloc::Global;
use std::fs::{File, OpenOptions};
use std::io;

/// The folder of the devices' files, below the one where the program runs.
const FOLDER: &str = "dev";

/// The system's files, and the standard error for what whoever runs the program should know of them.
#[derive(Drop)]
pub struct Folder<'r> {
    rt: &'r HostRuntime,
}

impl<'r> Folder<'r> {
    /// The folder below the one where this runtime's program runs.
    pub fn new(rt: &'r HostRuntime) -> Folder<'r> {
        Folder { rt }
    }

    /// A bank of the devices in the folder, none of which was looked up yet.
    pub fn bank(&self, alloc: Global) -> Result<FileBank<'_, Folder<'r>>, MemFault> {
        let folder = format!(in alloc; "{FOLDER}")?;
        FileBank::new(self, alloc, folder)
    }
}

impl<'r> Host for Folder<'r> {
    type File = File;

    fn open(&self, path: &str) -> io::Result<File> {
        OpenOptions::new()
            .read(true)
            .write(true)
            .open(self.rt, path)
    }

    fn tell(&self, name: &Name, why: &Unheld) {
        let word = str::from_utf8(name.as_bytes()).unwrap_or("?");
        // a program that can't write there goes on without
        let _ = match why {
            Unheld::ByAnother => {
                eprintln!(self.rt; "mpool: device {word}: another program holds its file")
            }
            Unheld::NoLock(error) => {
                eprintln!(self.rt; "mpool: device {word}: its file can't be locked: {error}")
            }
        };
    }
}
