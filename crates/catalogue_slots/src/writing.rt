//! Records written into slots.
ghost use Rattle.std.specs.Prelude.{◌≡◌, ◌+◌, ◌-◌, ◌*◌, ◌/◌, ◌^◌, ◌<◌, ◌≤◌, ◌++◌, length, take, drop};
ghost use Rattle.std.specs.List.{flat_map};
ghost use Rattle.bsa_descriptor.specs.Descriptor.{IsDescriptor, spelling as descriptor_bytes};
ghost use Rattle.catalogue_slots.specs.Records.{add, more, del, slots_for as slots_for_runs, mores, records_of};
ghost use Rattle.catalogue_slots.specs.Layout.{spelling};
ghost use Rattle.catalogue_slots.specs.Views.{object_of};

use crate::front::{Front, write_front};
use crate::runs::write_runs;
use crate::{ObjectEntry, SLOT_LEN};
use block_chain::Run;
use bsa_descriptor::Descriptor;
use byte_fields::{write_bytes, write_u64, write_zeros};

/// The runs that an Add has room for.
const ADD_RUNS: usize = 177;

/// The runs that a More has room for.
const MORE_RUNS: usize = 510;

/// The slots that an object with so many runs takes: one, and one more for each 510 runs behind the first 177.
pub fn slots_for(runs: usize) -> usize
    ensures { result ≡ slots_for_runs runs }
{
    1 + runs.saturating_sub(ADD_RUNS).div_ceil(MORE_RUNS)
}

/// Writes the slot of a deletion at this offset.
#[tactic(auto, unfolding(crate::specs::Layout::spelling, crate::specs::Layout::no_bytes))]
pub fn write_del(into: &mut [u8], at: usize, copy: u64)
    requires { at + 4096 ≤ length into.old }
    ensures written { take (at + 4096) into.new ≡ take at into.old ++ spelling (del copy) }
    ensures behind { drop (at + 4096) into.new ≡ drop (at + 4096) into.old }
{
    let front = Front {
        kind: 3,
        word: 0,
        double: 0,
        copy,
    };
    write_front(into, at, front);
    write_zeros(into, at + 16, SLOT_LEN - 16);
}

fn write_more(into: &mut [u8], at: usize, copy: u64, runs: &[Run])
    requires few { length runs.now ≤ 510 }
    requires place { at + 4096 ≤ length into.old }
    ensures { take (at + 4096) into.new ≡ take at into.old ++ spelling (more copy runs.now) }
{
    let front = Front {
        kind: 2,
        word: runs.len() as u16,
        double: 0,
        copy,
    };
    write_front(into, at, front);
    write_runs(into, at + 16, MORE_RUNS, runs);
}

fn write_descriptor(into: &mut [u8], at: usize, descriptor: &Descriptor)
    requires { at + 2624 ≤ length into.old }
    ensures written { take (at + 2624) into.new ≡ take at into.old ++ descriptor_bytes descriptor.now }
    ensures descriptor { IsDescriptor descriptor.now }
{
    let mut record = [0; 2624];
    descriptor.encode_into(&mut record);
    write_bytes(into, at, &record);
}

fn write_add(into: &mut [u8], at: usize, entry: &ObjectEntry)
    requires few { length entry.now.runs.items < 2 ^ 32 }
    requires place { at + 4096 ≤ length into.old }
    ensures written { take (at + 4096) into.new ≡ take at into.old
        ++ spelling (add (length entry.now.runs.items) (record (object_of entry.now) { runs = take 177 entry.now.runs.items })) }
    ensures descriptor { IsDescriptor entry.now.descriptor }
{
    let runs = entry.runs.as_slice();
    let front = Front {
        kind: 1,
        word: entry.volume,
        double: runs.len() as u32,
        copy: entry.copy,
    };
    write_front(into, at, front);
    write_u64(into, at + 16, entry.size);
    write_bytes(into, at + 24, &entry.digest);
    write_descriptor(into, at + 56, &entry.descriptor);
    write_runs(into, at + 2680, ADD_RUNS, &runs[..ADD_RUNS.min(runs.len())]);
}

/// Writes the Mores of an object at this offset, for the runs behind its first ones.
fn write_mores(into: &mut [u8], at: usize, copy: u64, runs: &[Run])
    requires { at + 4096 * ((length runs.now + 509) / 510) ≤ length into.old }
    ensures { take (at + 4096 * ((length runs.now + 509) / 510)) into.new
        ≡ take at into.old ++ flat_map spelling (mores copy ((length runs.now + 509) / 510) runs.now) }
{
    let count = runs.len().div_ceil(MORE_RUNS);
    for i in 0..count {
        let end = runs.len().min(MORE_RUNS * i + MORE_RUNS);
        write_more(into, at + SLOT_LEN * i, copy, &runs[MORE_RUNS * i..end]);
    }
}

/// Writes the slots of an object that is added, which fill the bytes.
fn write_slots(into: &mut [u8], entry: &ObjectEntry)
    requires few { length entry.now.runs.items < 2 ^ 32 }
    requires place { length into.old ≡ 4096 * slots_for_runs (length entry.now.runs.items) }
    ensures written { into.new ≡ flat_map spelling (records_of (object_of entry.now)) }
    ensures descriptor { IsDescriptor entry.now.descriptor }
{
    write_add(into, 0, entry);
    let runs = entry.runs.as_slice();
    write_mores(
        into,
        SLOT_LEN,
        entry.copy,
        &runs[ADD_RUNS.min(runs.len())..],
    );
}

/// Writes the slots of an object that is added at this offset, as many as `slots_for` says.
pub fn write_entry(into: &mut [u8], at: usize, entry: &ObjectEntry)
    requires few { length entry.now.runs.items < 2 ^ 32 }
    requires place { at + 4096 * slots_for_runs (length entry.now.runs.items) ≤ length into.old }
    ensures written { take (at + 4096 * slots_for_runs (length entry.now.runs.items)) into.new
        ≡ take at into.old ++ flat_map spelling (records_of (object_of entry.now)) }
    ensures behind { drop (at + 4096 * slots_for_runs (length entry.now.runs.items)) into.new
        ≡ drop (at + 4096 * slots_for_runs (length entry.now.runs.items)) into.old }
    // So a slot is written only of a descriptor that has a record.
    ensures descriptor { IsDescriptor entry.now.descriptor }
{
    let len = SLOT_LEN * slots_for(entry.runs.len());
    write_slots(&mut into[at..at + len], entry);
}
