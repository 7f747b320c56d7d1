//! Objects that are looked for.
ghost use Rattle.std.specs.Prelude.{◌≡◌, true, false, Some, None, IfSome, IsNone};
ghost use Rattle.catalogue_slots.specs.Views.{object_of};
ghost use Rattle.catalogue_replay.specs.Contents.{has_copy};
ghost use Rattle.catalogue_journal.specs.Catalogues.{objects_of, IsOpen};
ghost use Rattle.session_machine.specs.Calls.{object_with};

use catalogue_journal::Catalogue;
use catalogue_slots::ObjectEntry;
use site_disk::Disk;

/// The committed object with this copy id.
pub fn find_object<D: Disk>(cat: &Catalogue<D>, copy: u64) -> Option<&ObjectEntry>
    requires { IsOpen cat.now }
    ensures found { IfSome result (λ entry. object_with copy (objects_of cat.now) ≡ Some (object_of entry.now)) }
    ensures has { IfSome result (λ entry. has_copy copy (objects_of cat.now) ≡ true) }
    ensures missing { IsNone result → object_with copy (objects_of cat.now) ≡ None }
    ensures none { IsNone result → has_copy copy (objects_of cat.now) ≡ false }
{
    cat.find(copy)
}
