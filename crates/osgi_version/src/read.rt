//! Reading a version without memory.

ghost use Rattle.std.specs.Prelude.{◌≡◌, ◌≤◌, length, MatchResult};
ghost use Rattle.std.specs.Option.{option_map};
ghost use Rattle.osgi_version.specs.Faults.{IsFault};
ghost use Rattle.osgi_version.specs.computed.FoundParts.{found_parts};
ghost use Rattle.osgi_version.specs.computed.VersionMachine.{finish, held};
ghost use Rattle.osgi_version.specs.Versions.{ReadsVersion, IsReadableVersion, IsSpelledVersion};

use crate::examine::examine;
use crate::fault::VersionFault;
use crate::version_state::VersionState;

/// A version whose qualifier stands in the text that it was read from.
#[derive(Clone, Copy)]
pub struct Found<'a> {
    pub major: u32,
    pub minor: u32,
    pub micro: u32,
    pub qualifier: &'a [u8],
}

impl<'a> Found<'a> {
    fn new(major: u32, minor: u32, micro: u32, qualifier: &'a [u8]) -> Found<'a>
        ensures parts { found_parts result ≡ record { major = major; minor = minor; micro = micro; qualifier = qualifier.now } }
    {
        Found {
            major,
            minor,
            micro,
            qualifier,
        }
    }
}

/// The version that the bytes read as, where a text may end in this state.
fn finish(bytes: &[u8], state: VersionState) -> Option<Found>
    requires held { held state ≤ length bytes.now }
    ensures version { option_map found_parts result ≡ finish bytes.now state }
{
    match state {
        VersionState::Lead => Some(Found::new(0, 0, 0, &[])),
        VersionState::Major(m) => Some(Found::new(m, 0, 0, &[])),
        VersionState::MinorDot(_) => None,
        VersionState::Minor(m, i) => Some(Found::new(m, i, 0, &[])),
        VersionState::MicroDot(_, _) => None,
        VersionState::Micro(m, i, c) => Some(Found::new(m, i, c, &[])),
        VersionState::QualifierDot(_, _, _) => None,
        VersionState::Qualifier(m, i, c, k) => {
            let qualifier = bytes.split_at(bytes.len() - k).1;
            Some(Found::new(m, i, c, qualifier))
        }
        VersionState::Trail(m, i, c, k, w) => {
            let remainder = bytes.split_at(bytes.len() - (k + w)).1;
            Some(Found::new(m, i, c, remainder.split_at(k).0))
        }
    }
}

/// The version that the bytes read as, or their fault.
pub fn read(bytes: &[u8]) -> Result<Found, VersionFault>
    ensures reads { MatchResult result (λ f. ReadsVersion bytes.now (found_parts f)) (IsFault IsSpelledVersion IsReadableVersion bytes.now) }
{
    let state = match examine::<VersionState>(bytes) {
        Ok(state) => state,
        Err(fault) => return Err(fault),
    };
    match finish(bytes, state) {
        Some(found) => Ok(found),
        None => unreachable!(),
    }
}
