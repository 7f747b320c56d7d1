// A file of the system as a disk.
ghost use Rattle.std.specs.Prelude.{◌≡◌, false, IfOk, OnOk};
ghost use Rattle.site_disk.specs.Causes.{HasCause};
ghost use Rattle.site_disk.specs.Ledger.{new_ledger};

use crate::errors::Errors;
use site_disk::{Disk, Era, Failed};
use std::fs::{File, OpenOptions, TryLockError};
use std::io;
use std::os::unix::fs::FileExt;
use std::rt::Files;

/// Why a file can't be used.
#[derive(Clone, Copy, Debug)]
pub enum HostFault {
    /// The system refused a call.
    Failed(io::Error),
    /// Another process holds the file.
    Held,
    OutOfMemory,
}

impl From<io::Error> for HostFault {
    fn from(error: io::Error) -> HostFault {
        match error.kind() {
            io::ErrorKind::OutOfMemory => HostFault::OutOfMemory,
            _ => HostFault::Failed(error),
        }
    }
}

/// A file as a disk. It is closed where the value is dropped.
///
/// Its length is asked for once, and again where a write failed: no other process changes a file that a command uses.
#[derive(Drop)]
pub struct FileDisk {
    file: File,
    key: u64,
    length: Option<u64>,
    errors: Errors,
    read: u64,
    written: u64,
    last: u64,
    synced: u64,
}

impl FileDisk {
    ghost use Rattle.host_disk.specs.Files.{file_ledger};

    /// Opens a file for reads and writes, and makes an empty one where none is there: its name stands once the folder is
    /// synced. A folder that isn't there is `Failed`. The disk has the era's key, and was last used in it.
    pub fn open<R: Files<File = File>>(rt: &R, era: &Era, path: &str) -> Result<FileDisk, HostFault>
        ensures { IfOk result (λ disk. file_ledger disk ≡ new_ledger era.now.number era.now.key) }
    {
        let file = OpenOptions::new()
            .read(true)
            .write(true)
            .create(true)
            .open(rt, path)?;
        Ok(FileDisk {
            file,
            key: era.key(),
            length: None,
            errors: Errors::none(),
            read: 0,
            written: 0,
            last: era.number(),
            synced: era.number(),
        })
    }

    /// Holds the file, so that no other process can, until the value is dropped or the process ends.
    pub fn hold(&self) -> Result<(), HostFault> {
        match self.file.try_lock() {
            Ok(()) => Ok(()),
            Err(TryLockError::WouldBlock) => Err(HostFault::Held),
            Err(TryLockError::Error(error)) => Err(HostFault::from(error)),
        }
    }

    /// The last error that the system answered a call of this disk with.
    pub fn last_error(&self) -> Option<io::Error>
        ensures { result ≡ self.now.errors.last }
    {
        self.errors.last
    }

    // The file's length. One that can't be had is an error, and never an empty file.
    fn measure(&mut self) -> Result<u64, Failed>
        ensures kept { OnOk result (self.new.errors ≡ self.old.errors) }
        ensures cause { HasCause self.old.errors.count self.new.errors.count result }
        ensures others { self.new ≡ record self.old { length = self.new.length; errors = self.new.errors } }
    {
        if let Some(length) = self.length {
            return Ok(length);
        }
        let length = match self.file.metadata() {
            Ok(found) => found.len(),
            Err(error) => return Err(self.errors.add(error)),
        };
        self.length = Some(length);
        Ok(length)
    }
}

impl Disk for FileDisk {
    ghost use Rattle.host_disk.specs.Files.{file_bytes, file_image, file_ledger};

    ghost is_modelled = { false };

    ghost bytes = { file_bytes };

    ghost image = { file_image };

    ghost ledger = { file_ledger };

    fn len(&mut self) -> Result<u64, Failed> {
        self.measure()
    }

    fn read_at(&mut self, era: &Era, at: u64, into: &mut [u8]) -> Result<usize, Failed> {
        self.last = era.number();
        let behind = self.measure()?.saturating_sub(at);
        let n = into.len().min(behind as usize);
        match self.file.read_exact_at(&mut into[..n], at) {
            Ok(()) => {
                self.read = self.read.saturating_add(n as u64);
                Ok(n)
            }
            Err(error) => Err(self.errors.add(error)),
        }
    }

    fn write_at(&mut self, era: &Era, at: u64, piece: &[u8]) -> Result<(), Failed> {
        self.last = era.number();
        let count = piece.len() as u64;
        self.written = self.written.saturating_add(count);
        match self.file.write_all_at(piece, at) {
            Ok(()) => {
                let end = at.saturating_add(count);
                self.length = self.length.map(|length| length.max(end));
                Ok(())
            }
            Err(error) => {
                self.length = None;
                Err(self.errors.add(error))
            }
        }
    }

    fn sync(&mut self, era: &Era) -> Result<(), Failed> {
        self.last = era.number();
        match self.file.sync_data() {
            Ok(()) => {
                self.synced = era.number();
                Ok(())
            }
            Err(error) => Err(self.errors.add(error)),
        }
    }

    ghost now_counts = { λ disk f g c le lt image. tt };

    ghost reads_as = { λ disk f tells le. tt };
}
