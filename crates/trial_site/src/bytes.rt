//! The bytes of a site's disks.
use site_model::DiskName;
use std::alloc::{AllocError, Global};

/// How many disks a site has.
pub(crate) const DISKS: usize = 37;

/// The bytes of each disk of a site. A disk that has none is blank.
#[derive(Drop, PartialEq)]
pub struct Bytes {
    disks: Vec<Vec<u8>>,
}

// The place of a disk: catalogue, spare disk, boot file, log, volumes, chunks.
fn place_of(name: DiskName) -> usize {
    match name {
        DiskName::Cat => 0,
        DiskName::Spare => 1,
        DiskName::Boot => 2,
        DiskName::Log => 3,
        DiskName::Volume(n) => usize::from(n) + 4,
        DiskName::Chunk(n) => usize::from(n) + 21,
    }
}

impl Bytes {
    /// The bytes of a site whose disks are blank.
    pub fn blank(alloc: Global) -> Bytes {
        Bytes {
            disks: Vec::new(alloc),
        }
    }

    /// Those of disks in the order of their places.
    pub(crate) fn in_order(disks: Vec<Vec<u8>>) -> Bytes {
        Bytes { disks }
    }

    pub fn copy(&self, alloc: Global) -> Result<Bytes, AllocError> {
        let mut disks = Vec::new(alloc);
        for disk in &self.disks {
            disks.push(Vec::from_slice(alloc, disk)?)?;
        }
        Ok(Bytes { disks })
    }

    /// The bytes of a disk.
    pub fn of(&self, name: DiskName) -> &[u8] {
        match self.disks.get(place_of(name)) {
            Some(disk) => disk.as_slice(),
            None => &[],
        }
    }

    /// Other bytes for a disk. Answers whether it wasn't blank.
    pub fn put(&mut self, name: DiskName, bytes: Vec<u8>) -> bool {
        match self.disks.get_mut(place_of(name)) {
            Some(disk) => {
                *disk = bytes;
                true
            }
            None => false,
        }
    }

    /// A copy with bytes over those of a disk, from a place on, as many as it has there.
    pub fn with(
        &self,
        alloc: Global,
        name: DiskName,
        at: usize,
        piece: &[u8],
    ) -> Result<Bytes, AllocError> {
        let mut copy = self.copy(alloc)?;
        if let Some(disk) = copy.disks.get_mut(place_of(name)) {
            for (byte, put) in disk.iter_mut().skip(at).zip(piece) {
                *byte = *put;
            }
        }
        Ok(copy)
    }

    /// A copy with a disk that has these bytes alone.
    pub fn with_disk(
        &self,
        alloc: Global,
        name: DiskName,
        bytes: &[u8],
    ) -> Result<Bytes, AllocError> {
        let mut copy = self.copy(alloc)?;
        if let Some(disk) = copy.disks.get_mut(place_of(name)) {
            *disk = Vec::from_slice(alloc, bytes)?;
        }
        Ok(copy)
    }
}
