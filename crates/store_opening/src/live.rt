//! The live objects of a volume.
ghost use Rattle.std.specs.Prelude.{◌≡◌, map, IfOk};
ghost use Rattle.catalogue_slots.specs.Views.{object_of};
ghost use Rattle.store_opening.specs.Opening.{live_on};

use block_chain::Run;
use catalogue_journal::ObjectEntry;
use std::alloc::{AllocError, Global};

/// The runs of those of these objects that stand on a volume, in order.
pub(crate) fn live_runs(
    alloc: Global,
    objects: &[ObjectEntry],
    number: u16,
) -> Result<Vec<Vec<Run>>, AllocError>
    ensures { IfOk result (λ live. map (λ runs. runs.items) live.items ≡ live_on number (map object_of objects.now)) }
{
    let mut live = Vec::new(alloc);
    for entry in objects {
        if entry.volume == number {
            let runs = Vec::from_slice(alloc, &entry.runs)?;
            live.push(runs)?;
        }
    }
    Ok(live)
}
