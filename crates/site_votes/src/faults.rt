//! What a session answers, as a fault of the site.
ghost use Rattle.std.specs.Prelude.{◌≡◌};
ghost use Rattle.site_votes.specs.Sent.{SaysWhy, fault_in_session, says_lack};

use bsa_session::{Access, BsaRc, Lack};
use site_core::SiteFault;
use site_model::DiskName;

/// Whether an answer says that something is lacking.
pub(crate) fn lacks(answer: BsaRc) -> bool
    ensures { result ≡ says_lack answer }
{
    matches!(answer, BsaRc::NoResources(_))
}

/// An answer that says why a session on a volume didn't go on.
pub(crate) fn session_fault(answer: BsaRc, number: u16) -> SiteFault
    requires { SaysWhy answer }
    ensures { result ≡ fault_in_session number answer }
{
    match answer {
        BsaRc::NoResources(Lack::Blocks) => SiteFault::StoreFull(number),
        BsaRc::NoResources(Lack::Slots) => SiteFault::CatalogueFull,
        BsaRc::NoResources(Lack::Objects) => SiteFault::TooManyObjects,
        BsaRc::AccessFailure(Access::Cat) => SiteFault::DiskFault(DiskName::Cat),
        BsaRc::AccessFailure(Access::Spare) => SiteFault::DiskFault(DiskName::Spare),
        BsaRc::AccessFailure(Access::Volume(volume)) => {
            SiteFault::DiskFault(DiskName::Volume(volume))
        }
        BsaRc::OutOfMemory => SiteFault::OutOfMemory,
        BsaRc::AccessFailure(Access::Ends)
        | BsaRc::Success
        | BsaRc::InvalidCallSequence
        | BsaRc::InvalidObjectDescriptor
        | BsaRc::NoMatch
        | BsaRc::NoMoreData
        | BsaRc::ObjectNotFound
        | BsaRc::InvalidVote
        | BsaRc::Damaged { .. } => unreachable!(),
    }
}
