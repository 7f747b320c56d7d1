// How the process ends.
ghost use Rattle.std.specs.Prelude.{◌≡◌, ◌↔◌, Some, IsSome};
ghost use Rattle.std.specs.declared.io.Error.{Error};
ghost use Rattle.host_folder.specs.Endings.{error_on, start_number};
ghost use Rattle.site_commands.specs.Commands.{CutsShort};
ghost use Rattle.site_model.specs.declared.disk_name.DiskName.{DiskName as NameView};
ghost use Rattle.site_model.specs.declared.disk_name.DiskName.TheVariants.{Cat, Spare, Volume, Chunk};

use host_disk::{FileDisk, HostFault};
use site_core::Site;
use site_disk::OutOfMemory;
use site_model::{DiskName, Status};
use std::alloc::{AllocError, AllocFailed};
use std::{fmt, io};

/// Why a command can't begin. Nothing was written then.
#[derive(Clone, Copy, Debug)]
pub enum StartFault {
    OutOfMemory,
    /// The file of a disk can't be opened.
    Disk(DiskName, io::Error),
    /// Another command holds the site.
    Held,
    /// The folder can't be opened or synced.
    Folder(io::Error),
    /// The words can't be had.
    Words,
}

impl StartFault {
    /// The file of a disk can't be used.
    pub fn of_disk(name: DiskName, fault: HostFault) -> StartFault {
        match fault {
            HostFault::Failed(error) => StartFault::Disk(name, error),
            HostFault::Held => StartFault::Held,
            HostFault::OutOfMemory => StartFault::OutOfMemory,
        }
    }
}

impl fmt::Display for StartFault {
    fn fmt<W: fmt::Write>(&self, f: &mut fmt::Formatter<W>) -> fmt::Result {
        match self {
            StartFault::OutOfMemory => write!(f, "out of memory"),
            StartFault::Disk(name, error) => write!(f, "{name}: {error}"),
            StartFault::Held => write!(f, "another command is at work in this folder"),
            StartFault::Folder(error) => write!(f, "the folder: {error}"),
            StartFault::Words => write!(f, "the words can't be had"),
        }
    }
}

impl From<AllocError> for StartFault {
    fn from(_: AllocError) -> StartFault {
        StartFault::OutOfMemory
    }
}

impl<T: Drop> From<AllocFailed<T>> for StartFault {
    fn from(_: AllocFailed<T>) -> StartFault {
        StartFault::OutOfMemory
    }
}

impl From<OutOfMemory> for StartFault {
    fn from(_: OutOfMemory) -> StartFault {
        StartFault::OutOfMemory
    }
}

// The only call of the system that is asked for words.
impl From<io::Error> for StartFault {
    fn from(error: io::Error) -> StartFault {
        match error.kind() {
            io::ErrorKind::OutOfMemory => StartFault::OutOfMemory,
            _ => StartFault::Words,
        }
    }
}

/// The exit status of a command that couldn't begin.
pub fn start_status(fault: &StartFault) -> u8
    ensures { result ≡ start_number fault.now }
{
    match fault {
        StartFault::OutOfMemory => 1,
        StartFault::Disk(_, _) | StartFault::Held | StartFault::Folder(_) => 4,
        StartFault::Words => 24,
    }
}

/// What cut a command short. What stands of it, the next one finds.
#[derive(Clone, Copy, Debug)]
pub enum Cut {
    OutOfMemory,
    Input(io::Error),
    Output(io::Error),
    Disk(DiskName, io::Error),
}

impl fmt::Display for Cut {
    fn fmt<W: fmt::Write>(&self, f: &mut fmt::Formatter<W>) -> fmt::Result {
        match self {
            Cut::OutOfMemory => write!(f, "out of memory")?,
            Cut::Input(error) => write!(f, "standard input: {error}")?,
            Cut::Output(error) => write!(f, "standard output: {error}")?,
            Cut::Disk(name, error) => write!(f, "{name}: {error}")?,
        }
        write!(f, ": the command was cut short")
    }
}

// A disk is reached by giving up the value that works on it.
fn volume_error(site: Site<FileDisk>, number: u16) -> Option<io::Error>
    ensures { result ≡ error_on site (Volume number) }
{
    let store = site.store;
    let volume = store.volumes.into_iter().nth(usize::from(number))?;
    volume.into_disk().last_error()
}

// The catalogue's two disks.
fn catalogue_errors(site: Site<FileDisk>) -> (Option<io::Error>, Option<io::Error>)
    ensures cat { result.0 ≡ error_on site Cat }
    ensures spare { result.1 ≡ error_on site Spare }
{
    let store = site.store;
    let (cat, spare) = store.cat.into_disks();
    (cat.last_error(), spare.last_error())
}

fn chunk_error(site: Site<FileDisk>, number: u16) -> Option<io::Error>
    ensures { result ≡ error_on site (Chunk number) }
{
    let lane = site.lanes.into_iter().nth(usize::from(number))?;
    lane.into_disk().last_error()
}

// The last error on a disk of a site.
fn disk_error(site: Site<FileDisk>, name: DiskName) -> Option<io::Error>
    ensures { result ≡ error_on site name }
{
    match name {
        DiskName::Cat => catalogue_errors(site).0,
        DiskName::Spare => catalogue_errors(site).1,
        DiskName::Boot => site.boot.into_disk().last_error(),
        DiskName::Log => site.log.into_disk().last_error(),
        DiskName::Volume(n) => volume_error(site, n),
        DiskName::Chunk(n) => chunk_error(site, n),
    }
}

/// What cut a command short with this status, with the system's last answer on the device: the command's own text says
/// nothing of it.
pub fn cut_of(
    status: &Status,
    site: Site<FileDisk>,
    input: Option<io::Error>,
    output: Option<io::Error>,
) -> Option<Cut>
    ensures cut { IsSome result ↔ CutsShort status.now }
    // What it says of a disk is that disk's last error.
    ensures disk { (name : NameView) (error : Error) → status.now ≡ Status.DiskFault name → error_on site name ≡ Some error
        → result ≡ Some (Cut.Disk name error) }
{
    let unknown = io::Error::from(io::ErrorKind::Other);
    match status {
        Status::OutOfMemory => Some(Cut::OutOfMemory),
        Status::ReadFault => Some(Cut::Input(input.unwrap_or(unknown))),
        Status::WriteFault => Some(Cut::Output(output.unwrap_or(unknown))),
        Status::DiskFault(name) => {
            let error = disk_error(site, *name).unwrap_or(unknown);
            Some(Cut::Disk(*name, error))
        }
        _ => None,
    }
}
