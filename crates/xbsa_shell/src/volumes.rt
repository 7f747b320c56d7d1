//! The calls of a session that work on its volume.
ghost use Rattle.std.specs.Prelude.{◌≡◌, ◌<◌, List, length, None};
ghost use Rattle.bsa_session.specs.Reading.{CanReadOn};
ghost use Rattle.bsa_session.specs.Sessions.{state_of, Suits};
ghost use Rattle.object_store.specs.Reading.{ChangesOne};
ghost use Rattle.object_store.specs.Stores.{OfEach};
ghost use Rattle.object_volume.specs.Volumes.{disk_of};
ghost use Rattle.session_machine.specs.Calls.{Creates, EndsData, SendsPiece};
ghost use Rattle.session_machine.specs.Conditions.{IsSound};
ghost use Rattle.site_disk.specs.Ledger.{EraView, MayUse};
ghost use Rattle.catalogue_slots.specs.Records.{Object};
ghost use Rattle.xbsa_shell.specs.Serving.{IsPlace, Works};
ghost use Rattle.xbsa_shell.specs.Statuses.{status_of_answer, IsUncut};

use bsa_session::Session;
use object_volume::Volume;
use session_machine::BsaRc;
use site_disk::{Disk, Era};

/// Begins an object on the volume at this place.
pub(crate) fn create_on<D: Disk>(
    session: &mut Session,
    volumes: &mut [Volume<D>],
    place: u16,
    bytes: &[u8; 2624],
) -> BsaRc
    requires sound { IsSound (state_of session.old) }
    requires within { place < length volumes.old }
    requires place { IsPlace place (state_of session.old) }
    requires volume { OfEach (λ at volume. at ≡ place → Suits D.is_modelled D.bytes (state_of session.old) volume) volumes.old }
    ensures table { Creates bytes.now (state_of session.old) (state_of session.new) result }
    ensures sound { IsSound (state_of session.new) }
    ensures reads { (objects : List Object) → CanReadOn session.old objects → CanReadOn session.new objects }
    ensures one { ChangesOne (λ was is. Suits D.is_modelled D.bytes (state_of session.new) is) place volumes.old volumes.new }
    ensures works { (era : EraView) (objects : List Object) → ChangesOne (Works D.Disk era (state_of session.old) (state_of session.new) place objects) place volumes.old volumes.new }
{
    let volume = &mut volumes[usize::from(place)];
    session.create_object(volume, bytes)
}

/// Sends a piece of the object.
pub(crate) fn send_on<D: Disk>(
    session: &mut Session,
    volumes: &mut [Volume<D>],
    place: u16,
    era: &Era,
    bytes: &[u8],
) -> BsaRc
    requires sound { IsSound (state_of session.old) }
    requires within { place < length volumes.old }
    requires place { IsPlace place (state_of session.old) }
    requires era { OfEach (λ at volume. at ≡ place → MayUse era.now (D.ledger (disk_of volume))) volumes.old }
    requires volume { OfEach (λ at volume. at ≡ place → Suits D.is_modelled D.bytes (state_of session.old) volume) volumes.old }
    ensures table { SendsPiece (state_of session.old) (state_of session.new) result }
    ensures sound { IsSound (state_of session.new) }
    ensures reads { (objects : List Object) → CanReadOn session.old objects → CanReadOn session.new objects }
    ensures one { ChangesOne (λ was is. Suits D.is_modelled D.bytes (state_of session.new) is) place volumes.old volumes.new }
    ensures works { status_of_answer result ≡ None → (objects : List Object)
        → ChangesOne (Works D.Disk era.now (state_of session.old) (state_of session.new) place objects) place volumes.old volumes.new }
{
    let volume = &mut volumes[usize::from(place)];
    session.send_data(volume, era, bytes)
}

/// Ends the object, or a query or a fetch.
pub(crate) fn end_on<D: Disk>(
    session: &mut Session,
    volumes: &mut [Volume<D>],
    place: u16,
    era: &Era,
) -> Result<Option<(u64, [u8; 32])>, BsaRc>
    requires sound { IsSound (state_of session.old) }
    requires within { place < length volumes.old }
    requires place { IsPlace place (state_of session.old) }
    requires era { OfEach (λ at volume. at ≡ place → MayUse era.now (D.ledger (disk_of volume))) volumes.old }
    requires volume { OfEach (λ at volume. at ≡ place → Suits D.is_modelled D.bytes (state_of session.old) volume) volumes.old }
    ensures table { EndsData (state_of session.old) (state_of session.new) result }
    ensures sound { IsSound (state_of session.new) }
    ensures reads { (objects : List Object) → CanReadOn session.old objects → CanReadOn session.new objects }
    ensures one { ChangesOne (λ was is. Suits D.is_modelled D.bytes (state_of session.new) is) place volumes.old volumes.new }
    ensures works { IsUncut result → (objects : List Object)
        → ChangesOne (Works D.Disk era.now (state_of session.old) (state_of session.new) place objects) place volumes.old volumes.new }
{
    let volume = &mut volumes[usize::from(place)];
    session.end_data(volume, era)
}
