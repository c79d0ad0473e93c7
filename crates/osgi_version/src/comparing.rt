//! Versions compared: which are the same, and how others are ordered.

ghost use Rattle.std.specs.Prelude.{◌≡◌, ◌↔◌, IsTrue};
ghost use Rattle.std.proofs.Common.{refl};
ghost use Rattle.std.specs.Cmp.{partial_equiv_from_equiv, po};
ghost use Rattle.std.specs.Ordering.{as_partial_cmp};
ghost use Rattle.osgi_base.specs.computed.Exact.{exact_equivalence};
ghost use Rattle.osgi_version.specs.Comparing.{exact_version, version_cmp, version_eq, version_ties, version_total};
ghost use Rattle.osgi_version.specs.VersionValues.{order, parts};

use crate::version::Version;
use osgi_base::ExactEq;
use std::cmp::Ordering;

impl PartialEq for Version {
    ghost eq = { version_eq };

    ghost laws = { partial_equiv_from_equiv (exact_equivalence version_eq exact_version) };

    fn eq(&self, other: &Version) -> bool
        ensures parts { result ≡ version_eq self.now other.now }
        ensures same { IsTrue result ↔ self.now ≡ other.now }
    {
        self.major == other.major
            && self.minor == other.minor
            && self.micro == other.micro
            && self.qualifier == other.qualifier
    }
}

impl Eq for Version {
    ghost laws = { exact_equivalence version_eq exact_version };
}

impl ExactEq for Version {
    ghost exact = { exact_version };
}

impl PartialOrd for Version {
    ghost partial_cmp = { as_partial_cmp version_cmp };

    ghost laws = { po version_total version_ties };

    fn partial_cmp(&self, other: &Version) -> Option<Ordering> {
        Some(self.cmp(other))
    }
}

impl Ord for Version {
    ghost cmp = { version_cmp };

    ghost total = { version_total };

    ghost matches_partial_cmp = { λ v w. refl };

    ghost matches_eq = { version_ties };

    fn cmp(&self, other: &Version) -> Ordering
        ensures order { result ≡ order (parts self.now) (parts other.now) }
    {
        self.order(&other.found())
    }
}
