//! The kinds of disks, and the byte of each.
ghost use Rattle.std.specs.Prelude.{◌≡◌};
ghost use Rattle.site_headers.specs.Kinds.{kind_code};

/// What a disk of a site holds.
#[derive(Clone, Copy, Debug, PartialEq, Eq)]
pub(crate) enum DiskKind {
    Catalogue,
    Spare,
    Boot,
    Log,
    Volume,
    Chunk,
}

impl DiskKind {
    /// The kind's byte in a header.
    pub(crate) fn code(self) -> u8
        ensures { result ≡ kind_code self }
    {
        match self {
            DiskKind::Catalogue => 1,
            DiskKind::Spare => 2,
            DiskKind::Boot => 3,
            DiskKind::Log => 4,
            DiskKind::Volume => 5,
            DiskKind::Chunk => 6,
        }
    }
}
