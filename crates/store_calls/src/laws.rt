//! The laws, each as the contract of a function.
ghost use Rattle.std.specs.Prelude.{◌≡◌, ◌+◌, ◌<◌, ◌≤◌, ◌∷◌, [], ℕ, List, Option, None, Some, true, IsTrue, slice_get};
ghost use Rattle.std.specs.List.{AllByRecursion};
ghost use Rattle.site_disk.specs.Images.{OnlyAfter};
ghost use Rattle.object_volume.specs.Objects.{object};
ghost use Rattle.object_volume.specs.Volumes.{disk_of};
ghost use Rattle.object_volume.specs.declared.volume.Volume.{Volume};
ghost use Rattle.object_store.specs.Stores.{OfEach};
ghost use Rattle.site_layouts.specs.VolumeLaws.{IsSentTo};
ghost use Rattle.bsa_session.specs.Sessions.{LeavesOpen};
ghost use Rattle.catalogue_journal.specs.Transactions.{Addition, ended, object_with, slots_wanted};
ghost use Rattle.catalogue_replay.specs.Contents.{Contents};
ghost use Rattle.object_store.specs.declared.store.Store.{Store};
ghost use Rattle.store_opening.specs.Standing.{Agrees};
ghost use Rattle.site_headers.specs.Heads.{Head};
ghost use Rattle.store_calls.specs.Sessions.{HasSent, HasCommitted};
ghost use Rattle.walks.specs.Courses.{Call, make, only};
ghost use Rattle.site_worlds.specs.Worlds.{Kept};
ghost use Rattle.site_worlds.specs.Moves.{commit_objects};
ghost use Rattle.site_courses.specs.Courses.{SiteCourse};
ghost use Rattle.site_courses.specs.Faults.{Fault, cuts};
ghost use Rattle.site_layouts.specs.Stages.{site_stage};
ghost use Rattle.site_core.specs.declared.site.Site.{Site};
ghost use Rattle.site_core.specs.Calls.{CallFrom};
ghost use Rattle.site_core.specs.Layers.{layers};
ghost use Rattle.store_calls.specs.Transactions.{MayVote, OnlySends, Transacts, AgreesBehind, AgreesStill, WritesFree};

use site_disk::Disk;

/// Where objects were only sent to the volumes, into free blocks, no move is made: not by a call that is cut short, and not by one that
/// ended with a refusal or none, with a store that agrees with its disks.
pub fn a_store_that_only_sends_makes_no_move<D: Disk>()
    ensures ended { IsTrue D.is_modelled → (from to : ℕ) (old new : Site D) → OnlySends D.Disk from old new → (fault : Option Fault) → from ≤ to
        → AgreesStill D.Disk from to old new → Call (site_stage (layers D.Disk)) 0 from to old new (λ site. only fault) fault }
    ensures cut { IsTrue D.is_modelled → (from to : ℕ) (old new : Site D) → OnlySends D.Disk from old new → (course : SiteCourse) (fault : Fault) → from ≤ to
        → cuts fault ≡ true → Call (site_stage (layers D.Disk)) 0 from to old new course (Some fault) }
{}

/// Objects are sent in one era, and from a later one on their transaction is voted on: from each fit site from which the vote may be made
/// that is the move of the vote alone, wherever it is cut short, and where it ended well with a store that agrees with its disks.
pub fn a_transaction_is_one_move<D: Disk>()
    ensures cut { IsTrue D.is_modelled → (from e to : ℕ) (added : List Kept) (deleted : List ℕ) (additions : List Addition) (old new : Site D)
        → Transacts D.Disk from e added deleted additions old new → (fault : Fault) → from ≤ to → cuts fault ≡ true
        → CallFrom (site_stage (layers D.Disk)) (MayVote added deleted) 0 from to old new (λ site. make (commit_objects added deleted ∷ [])) (Some fault) }
    ensures ended { IsTrue D.is_modelled → (from e to : ℕ) (added : List Kept) (deleted : List ℕ) (additions : List Addition) (old new : Site D)
        → Transacts D.Disk from e added deleted additions old new → e ≤ to → AgreesBehind D.Disk from to deleted additions old new
        → CallFrom (site_stage (layers D.Disk)) (MayVote added deleted) 0 from to old new (λ site. make (commit_objects added deleted ∷ [])) None }
{}

/// A store agrees with its disks behind a transaction whose objects were sent in an era and that was committed before a later one.
pub fn a_store_agrees_behind_a_transaction<D: Disk>()
    ensures { (from to : ℕ) (deleted : List ℕ) (additions : List Addition) (old mid new : Store D) → from < to → HasSent D.Disk from additions old mid
        → HasCommitted D.Disk to deleted additions mid new → (contents : Contents) (taken : ℕ) (head : Head) → Agrees D.Disk from old contents taken head
        → Agrees D.Disk to new (ended deleted additions contents) (taken + slots_wanted deleted additions) head }
{}

/// Sends to a volume one after another in an era write blocks that were free before the first.
pub fn sends_are_one_send<D: Disk>()
    ensures { (from : ℕ) (was mid is : Volume D) → LeavesOpen D.bytes was mid → WritesFree D.Disk from was mid → WritesFree D.Disk from mid is
        → WritesFree D.Disk from was is }
{}

/// An object that was ended in an era, and then reads as its bytes, is there as it was sent in each image of later eras.
pub fn an_ended_object_is_sent<D: Disk>()
    ensures { (from e copy : ℕ) (addition : Addition) (message : List ℕ) (volumes : List (Volume D)) → from < e
        → ((volume : Volume D) → slice_get volumes addition.volume ≡ Some volume
        → (object addition.runs addition.size (D.bytes (disk_of volume)) ≡ message) × OnlyAfter from (D.bytes (disk_of volume)) (D.image (disk_of volume)))
        → OfEach (λ place volume. (f : ℕ) (bytes : List ℕ) → e ≤ f → D.image (disk_of volume) f bytes
        → AllByRecursion (IsSentTo place bytes) (record { object = object_with copy addition; bytes = message } ∷ [])) volumes }
{}
