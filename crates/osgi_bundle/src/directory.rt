//! The live bundles by location, and by name and version.

ghost use Rattle.std.specs.Prelude.{◌≡◌, List, ℕ, [], ◌∷◌, ◌++◌, None, IfOk, MatchOption, OnOk, OnErr};
ghost use Rattle.std.specs.BTreeMap.{get};
ghost use Rattle.osgi_base.specs.computed.Texts.{text_cmp};
ghost use Rattle.osgi_bundle.specs.computed.Kept.{AddsFirst, HasNoVersion, HoldsSame, IsHighest, lowest_version, name_cmp, named};
ghost use Rattle.osgi_bundle.specs.declared.directory.BundleName.{BundleName};

use osgi_base::{BundleId, Text};
use osgi_version::Version;
use std::alloc::{AllocError, Global};
use std::collections::BTreeMap;

/// A symbolic name with a version.
#[derive(Drop, PartialEq, Eq, PartialOrd, Ord)]
pub struct BundleName {
    pub name: Text,
    pub version: Version,
}

impl BundleName {
    /// Copies of the name and the version.
    pub fn of(alloc: Global, name: &Text, version: &Version) -> Result<BundleName, AllocError>
        ensures same { IfOk result (λ made. made ≡ named name.now version.now) }
    {
        Ok(BundleName {
            name: name.copy(alloc)?,
            version: version.copy(alloc)?,
        })
    }

    /// The least of all keys that come after those of this name.
    fn after(alloc: Global, name: &Text) -> Result<BundleName, AllocError>
        ensures after { IfOk result (λ end. end ≡ named (name.now ++ 0 ∷ []) lowest_version) }
    {
        let bytes = name.bytes();
        let mut longer = Vec::with_capacity(alloc, bytes.len() + 1)?;
        longer.extend_from_slice(bytes)?;
        longer.push(0)?;
        Ok(BundleName {
            name: Text::from_vec(alloc, longer)?,
            version: Version::numbered(0, 0, 0),
        })
    }
}

/// Which bundle was installed from a location, the first of several, and which has a name and a version.
#[derive(Drop)]
pub struct Directory {
    alloc: Global,
    locations: BTreeMap<Text, BundleId>,
    names: BTreeMap<BundleName, BundleId>,
}

impl Directory {
    pub fn new(alloc: Global) -> Directory
        ensures no_location { (l : List ℕ) → get text_cmp result.locations l ≡ None }
        ensures no_name { (n : BundleName) → get name_cmp result.names n ≡ None }
    {
        Directory {
            alloc,
            locations: BTreeMap::new(alloc),
            names: BTreeMap::new(alloc),
        }
    }

    pub fn at_location(&self, location: &Text) -> Option<BundleId>
        ensures bundle { result ≡ get text_cmp self.now.locations location.now }
    {
        self.locations.get(location).copied()
    }

    pub fn of_name(&self, name: &BundleName) -> Option<BundleId>
        ensures bundle { result ≡ get name_cmp self.now.names name.now }
    {
        self.names.get(name).copied()
    }

    /// The bundle with the highest version of the name: the last that comes before all keys of longer names.
    pub fn highest(&self, name: &Text) -> Result<Option<BundleId>, AllocError>
        ensures highest { IfOk result (λ found.
            MatchOption found (HasNoVersion self.now.names name.now)
            (IsHighest self.now.names name.now)) }
    {
        let end = BundleName::after(self.alloc, name)?;
        let Some((key, &bundle)) = self.names.range(..end).next_back() else {
            return Ok(None);
        };
        if key.name != *name {
            return Ok(None);
        }
        Ok(Some(bundle))
    }

    /// Adds a bundle under its name and version, and under its location unless another stands there. If memory runs out, it
    /// stands under neither.
    pub fn add(
        &mut self,
        location: &Text,
        name: BundleName,
        bundle: BundleId,
    ) -> Result<(), AllocError>
        requires fresh { get name_cmp self.old.names name ≡ None }
        ensures locations { OnOk result
            (AddsFirst text_cmp self.old.locations self.new.locations location.now bundle) }
        ensures names { OnOk result (AddsFirst name_cmp self.old.names self.new.names name bundle) }
        ensures same_locations { OnErr result
            (HoldsSame text_cmp self.old.locations self.new.locations) }
        ensures same_names { OnErr result (HoldsSame name_cmp self.old.names self.new.names) }
    {
        if self.locations.contains_key(location) {
            self.names.insert(name, bundle)?;
            return Ok(());
        }
        self.locations.insert(location.copy(self.alloc)?, bundle)?;
        if let Err(_) = self.names.insert(name, bundle) {
            self.locations.remove(location);
            return Err(AllocError);
        }
        Ok(())
    }
}
