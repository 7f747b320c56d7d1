// The disks of a site.
ghost use Rattle.std.specs.Prelude.{Some};

use std::fmt;

/// A disk of a site: the catalogue and its spare, the boot file, the logical log, 17 volumes, 16 chunks.
#[derive(Clone, Copy, Debug, PartialEq, Eq)]
pub enum DiskName {
    Cat,
    Spare,
    Boot,
    Log,
    Volume(u16),
    Chunk(u16),
}

/// The name of the file that stands for the disk.
impl fmt::Display for DiskName {
    ghost use Rattle.site_model.specs.Texts.{disk_text};

    ghost output = { λ name. Some (disk_text name) };

    fn fmt<W: fmt::Write>(&self, f: &mut fmt::Formatter<W>) -> fmt::Result {
        match self {
            DiskName::Cat => write!(f, "cat"),
            DiskName::Spare => write!(f, "spare"),
            DiskName::Boot => write!(f, "boot"),
            DiskName::Log => write!(f, "log"),
            DiskName::Volume(n) if *n < 10 => write!(f, "vol0{n}"),
            DiskName::Volume(n) => write!(f, "vol{n}"),
            DiskName::Chunk(n) if *n < 10 => write!(f, "chunk0{n}"),
            DiskName::Chunk(n) => write!(f, "chunk{n}"),
        }
    }
}
