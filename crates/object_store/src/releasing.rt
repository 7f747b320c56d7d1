//! Blocks of objects that go back to their volumes.
ghost use Rattle.std.specs.Prelude.{◌≡◌, ◌<◌, List, [], ◌∷◌, length, map, IfOk};
ghost use Rattle.catalogue_journal.specs.Catalogues.{objects_of, IsOpen};
ghost use Rattle.catalogue_journal.specs.Views.{addition_of};
ghost use Rattle.object_store.specs.Stores.{OfEach};
ghost use Rattle.object_store.specs.Reading.{ChangesOne};
ghost use Rattle.object_store.specs.Returns.{place_of_object, place_of_addition, place_of_blocks, objects_with, CanRelease, CanGiveBack, CanCancel, GivesBack, AllGiveBack, Cancels};

use crate::finding::find_object;
use block_chain::Run;
use catalogue_journal::{Catalogue, NewObject};
use object_volume::Volume;
use site_disk::Disk;
use std::alloc::{AllocError, Global};

/// The volume of an object, and the runs of its blocks.
#[derive(Debug, Drop)]
pub struct ObjectBlocks {
    pub volume: u16,
    pub runs: Vec<Run>,
}

/// Where the objects with these copy ids stand, those that aren't there left out.
pub fn blocks_of_objects<D: Disk>(
    alloc: Global,
    cat: &Catalogue<D>,
    copies: &[u64],
) -> Result<Vec<ObjectBlocks>, AllocError>
    requires { IsOpen cat.now }
    ensures { IfOk result (λ blocks. map place_of_blocks blocks.items ≡ map place_of_object (objects_with copies.now (objects_of cat.now))) }
{
    let mut blocks = Vec::with_capacity(alloc, copies.len())?;
    for copy in copies {
        match find_object(cat, *copy) {
            Some(entry) => {
                let runs = Vec::from_slice(alloc, &entry.runs)?;
                blocks.push(ObjectBlocks {
                    volume: entry.volume,
                    runs,
                })?;
            }
            None => {}
        }
    }
    Ok(blocks)
}

// Gives the blocks of a live object back to its volume.
fn release_one<D: Disk>(volumes: &mut [Volume<D>], number: u16, runs: &[Run])
    requires within { number < length volumes.old }
    requires live { OfEach (λ place volume. place ≡ number → CanRelease runs.now volume) volumes.old }
    ensures { ChangesOne (GivesBack D.is_modelled D.bytes (runs.now ∷ [])) number volumes.old volumes.new }
{
    let volume = &mut volumes[usize::from(number)];
    volume.release(runs);
}

/// Gives the blocks of these objects back to their volumes, in order. Nothing is written.
pub fn release_blocks<D: Disk>(volumes: &mut [Volume<D>], blocks: &[ObjectBlocks])
    requires { CanGiveBack (map place_of_blocks blocks.now) volumes.old }
    ensures { AllGiveBack D.is_modelled D.bytes (map place_of_blocks blocks.now) volumes.old volumes.new }
{
    for object in blocks {
        release_one(volumes, object.volume, &object.runs);
    }
}

/// The same of objects that a transaction was to add.
pub fn release_additions<D: Disk>(volumes: &mut [Volume<D>], added: &[NewObject])
    requires { CanGiveBack (map place_of_addition (map addition_of added.now)) volumes.old }
    ensures { AllGiveBack D.is_modelled D.bytes (map place_of_addition (map addition_of added.now)) volumes.old volumes.new }
{
    for object in added {
        release_one(volumes, object.volume, &object.runs);
    }
}

// Gives the blocks of the object that is being sent on a volume back.
pub(crate) fn cancel_one<D: Disk>(volumes: &mut [Volume<D>], number: u16)
    requires within { number < length volumes.old }
    requires sends { OfEach (λ place volume. place ≡ number → CanCancel D.is_modelled D.bytes volume) volumes.old }
    ensures { ChangesOne Cancels number volumes.old volumes.new }
{
    let volume = &mut volumes[usize::from(number)];
    volume.cancel();
}
