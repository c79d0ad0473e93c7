//! The table of bundles.

ghost use Rattle.std.specs.Prelude.{◌≡◌, ◌≢◌, ◌+◌, ◌<◌, [], ◌∷◌, ◌++◌, length, slice_get, None, Some, false, IfOk, IfSome, MatchOption, OnOk, OnErr};
ghost use Rattle.std.specs.Option.{option_copied};
ghost use Rattle.osgi_base.specs.Verdict.{Gives};
ghost use Rattle.osgi_base.specs.declared.ids.BundleId.{BundleId};
ghost use Rattle.osgi_bundle.specs.computed.Kept.{bundle_under, name_cmp, bundle_name, row_in};
ghost use Rattle.osgi_bundle.specs.Rows.{AreApart, AreInOrder, bundle_from, IsBegun, IsSettable, IsTwin, new_row, resolved_state, row_at, row_refusals, state_at, verdict_of, with_begun, with_state};
ghost use Rattle.osgi_bundle.specs.Stands.{first_table, kept_of, StandsAfter, StandsForNone};
ghost use Rattle.osgi_bundle.specs.Targets.{IsNamedRow};
ghost use Rattle.osgi_ops.specs.Bundles.{the_system_bundle};
ghost use Rattle.osgi_ops.specs.Moments.{first_world};
ghost use Rattle.osgi_ops.specs.States.{is_changing};
ghost use Rattle.osgi_ops.specs.declared.limits.TheConstants.{MAX_BUNDLES};
ghost use Rattle.osgi_ops.specs.declared.refusal.Refusal.{Refusal};

use crate::directory::{BundleName, Directory};
use crate::kept::BundleKept;
use osgi_base::{BundleId, Tag, Text, copy_two};
use osgi_ops::{ACTIVE, INSTALLED, MAX_BUNDLES, Many, RESOLVED, Refusal, UNINSTALLED};
use osgi_version::Version;
use osgi_world::system_revision;
use std::alloc::{AllocError, Global};
use std::marker::Model;

/// The live bundles by rising id, the system bundle first, found by id, by location, and by name and version.
pub struct Table {
    alloc: Global,
    rows: Vec<BundleKept>,
    directory: Directory,
    issued: u32,
}

/// Not derived, so that each exit at which one is dropped is a single call, which is cheap to prove.
impl Drop for Table {
    fn drop(self) {
        let Table {
            alloc: _,
            rows: _,
            directory: _,
            issued: _,
        } = self;
    }
}

impl Model for Table {
    ghost use Rattle.osgi_bundle.specs.computed.Kept.{IsKept};
    ghost use Rattle.osgi_bundle.specs.Rows.{TableRows};

    ghost Value = { TableRows };

    ghost view = { λ t. record { rows = t.rows.items; issued = t.issued } };

    ghost invariant = { λ t. IsKept (record { rows = t.rows.items; issued = t.issued }) t.directory };
}

impl Table {
    /// A table of the system bundle alone.
    pub fn new(alloc: Global) -> Result<Table, AllocError>
        ensures first { IfOk result (λ table. table ≡ first_table) }
        ensures stands { IfOk result StandsForNone }
    {
        let system = system_row(alloc)?;
        let name = BundleName::of(alloc, &system.name, &system.version)?;
        let mut directory = Directory::new(alloc);
        directory.add(&system.location, name, system.bundle)?;
        let mut rows = Vec::with_capacity(alloc, 1)?;
        rows.push(system)?;
        Ok(Table {
            alloc,
            rows,
            directory,
            issued: 0,
        })
    }

    /// How many bundles are live, the system bundle among them.
    pub fn count(&self) -> usize
        ensures count { result ≡ length self.now.rows }
        ensures in_order { AreInOrder self.now }
        ensures apart { AreApart self.now.rows }
    {
        self.rows.len()
    }

    /// The live bundle at this place by rising id, counted from 0.
    pub fn at(&self, place: usize) -> &BundleKept
        requires within { place < length self.now.rows }
        ensures bundle { slice_get self.now.rows place ≡ Some result.now }
        ensures in_order { AreInOrder self.now }
    {
        &self.rows[place]
    }

    /// The live bundles by rising id.
    pub fn rows(&self) -> &[BundleKept]
        ensures rows { result.now ≡ self.now.rows }
        ensures in_order { AreInOrder self.now }
        ensures apart { AreApart self.now.rows }
    {
        self.rows.as_slice()
    }

    /// The state of a bundle by OSGi's number; None exactly where its id was never given.
    pub fn state(&self, bundle: BundleId) -> Option<u8>
        ensures state { result ≡ state_at bundle self.now }
    {
        match self.row(bundle) {
            Some(row) => Some(row.state),
            None if bundle.0 <= self.issued => Some(UNINSTALLED),
            None => None,
        }
    }

    /// The place of a live bundle among the rows.
    fn place(&self, bundle: BundleId) -> Option<usize>
        ensures place { row_in self.now.rows result ≡ row_at bundle self.now.rows }
    {
        self.rows
            .binary_search_by_key(&bundle.0, |row| row.bundle.0)
            .ok()
    }

    /// The row of a live bundle. That of one that is starting or stopping names the line that began that.
    pub fn row(&self, bundle: BundleId) -> Option<&BundleKept>
        ensures row { option_copied result ≡ row_at bundle self.now.rows }
        ensures begun { IfSome result (λ row. IsBegun row.now) }
    {
        let place = self.place(bundle)?;
        self.rows.get(place)
    }

    /// The live bundle that was installed from a location.
    pub fn from_location(&self, location: &Text) -> Option<BundleId>
        ensures bundle { result ≡ bundle_from location.now self.now.rows }
    {
        self.directory.at_location(location)
    }

    /// The live bundle of this name with the highest version.
    pub(crate) fn named(&self, name: &Text) -> Result<Option<BundleId>, AllocError>
        ensures named { IfOk result (λ found.
            MatchOption found ((id : BundleId) → ¬ IsNamedRow name.now self.now.rows id)
            (IsNamedRow name.now self.now.rows)) }
    {
        self.directory.highest(name)
    }

    /// Installs a bundle under the next id. Tests alone call it: the program decides by `make`, and installs by `insert`.
    pub fn install(
        &mut self,
        location: Text,
        name: Text,
        version: Version,
        fragment: bool,
        row: u32,
    ) -> Result<Result<BundleId, Refusal>, AllocError>
        requires ids_left { self.old.issued < u32.MAX }
        ensures answer { IfOk result (λ answer.
            Gives (row_refusals name version self.old.rows) (λ id. id.0 ≡ self.old.issued + 1)
            (verdict_of answer)) }
        ensures rows { IfOk result (λ answer.
            IfOk answer (λ id.
            self.new.rows ≡ self.old.rows ++ new_row id location name version fragment row ∷ [])) }
        ensures issued { IfOk result (λ answer.
            OnOk answer (self.new.issued ≡ self.old.issued + 1)) }
        ensures stands { IfOk result (λ answer.
            IfOk answer (λ id.
            StandsAfter location name version fragment row id self.old self.new)) }
        ensures refused { IfOk result (λ answer. OnErr answer (self.new ≡ self.old)) }
        ensures unchanged { OnErr result (self.new ≡ self.old) }
    {
        match self.make(location, name, version, fragment, row)? {
            Ok(made) => {
                let bundle = made.bundle;
                self.insert(made)?;
                Ok(Ok(bundle))
            }
            Err(refusal) => Ok(Err(refusal)),
        }
    }

    /// The bundle as it is installed under the next id, by `insert`. The program decides by this call.
    pub fn make(
        &self,
        location: Text,
        name: Text,
        version: Version,
        fragment: bool,
        row: u32,
    ) -> Result<Result<BundleKept, Refusal>, AllocError>
        requires ids_left { self.now.issued < u32.MAX }
        ensures answer { IfOk result (λ answer.
            Gives (row_refusals name version self.now.rows)
            (λ made.
            made
            ≡ new_row (record { 0 = self.now.issued + 1 }) location name version fragment row)
            (verdict_of answer)) }
    {
        let key = BundleName::of(self.alloc, &name, &version)?;
        if let Some(bundle) = self.directory.of_name(&key) {
            return Ok(Err(Refusal::DuplicateBundle { bundle }));
        }
        if self.rows.len() > MAX_BUNDLES {
            return Ok(Err(Refusal::TooMany {
                kind: Many::Bundles,
            }));
        }
        Ok(Ok(BundleKept {
            bundle: BundleId(self.issued + 1),
            location,
            name,
            version,
            fragment,
            row,
            state: INSTALLED,
            by: None,
        }))
    }

    /// Inserts a bundle that `make` made, under the next id. The program installs by this call.
    pub fn insert(&mut self, made: BundleKept) -> Result<(), AllocError>
        requires next { made.bundle.0 ≡ self.old.issued + 1 }
        requires is_new { made
            ≡ new_row made.bundle made.location made.name made.version made.fragment made.row }
        requires apart { (refusal : Refusal)
            → ¬ IsTwin made.name made.version self.old.rows refusal }
        ensures rows { OnOk result (self.new.rows ≡ self.old.rows ++ made ∷ []) }
        ensures issued { OnOk result (self.new.issued ≡ self.old.issued + 1) }
        ensures stands { OnOk result
            (StandsAfter made.location made.name made.version made.fragment made.row made.bundle
            self.old self.new) }
        ensures unchanged { OnErr result (self.new ≡ self.old) }
    {
        let key = BundleName::of(self.alloc, &made.name, &made.version)?;
        self.add(key, made)?;
        Ok(())
    }

    /// Sets whether a bundle is resolved. It has to be live, and not up.
    pub fn set_resolved(&mut self, bundle: BundleId, resolved: bool)
        requires settable { IsSettable bundle self.old.rows }
        ensures rows { self.new.rows ≡ with_state bundle (resolved_state resolved) self.old.rows }
        ensures issued { self.new.issued ≡ self.old.issued }
    {
        self.set_state(bundle, resolved_state(resolved));
    }

    /// Sets the state of a live bundle, which is then neither starting nor stopping.
    pub(crate) fn set_state(&mut self, bundle: BundleId, state: u8)
        requires live { row_at bundle self.old.rows ≢ None }
        requires settled { is_changing state ≡ false }
        ensures rows { self.new.rows ≡ with_state bundle state self.old.rows }
        ensures issued { self.new.issued ≡ self.old.issued }
    {
        let Some(place) = self.place(bundle) else {
            unreachable!()
        };
        let row = &mut self.rows[place];
        row.state = state;
    }

    /// Sets the state of a live bundle, and whose line began that it is in it.
    pub(crate) fn set_begun(&mut self, bundle: BundleId, state: u8, tag: Tag)
        requires live { row_at bundle self.old.rows ≢ None }
        ensures rows { self.new.rows ≡ with_begun bundle state tag self.old.rows }
        ensures issued { self.new.issued ≡ self.old.issued }
    {
        let Some(place) = self.place(bundle) else {
            unreachable!()
        };
        let row = &mut self.rows[place];
        row.state = state;
        row.by = Some(tag);
    }

    /// Adds a bundle under the next id. Memory is taken first.
    fn add(&mut self, key: BundleName, row: BundleKept) -> Result<(), AllocError>
        requires next { row.bundle.0 ≡ self.old.issued + 1 }
        requires named { key ≡ bundle_name row }
        requires fresh { bundle_under name_cmp bundle_name key self.old.rows ≡ None }
        requires begun { IsBegun row }
        ensures rows { OnOk result (self.new.rows ≡ self.old.rows ++ row ∷ []) }
        ensures issued { OnOk result (self.new.issued ≡ self.old.issued + 1) }
        ensures unchanged { OnErr result (self.new ≡ self.old) }
    {
        self.rows.reserve(1)?;
        self.directory.add(&row.location, key, row.bundle)?;
        self.issued = row.bundle.0;
        self.rows.push(row)?;
        Ok(())
    }
}

/// The state of a bundle that is not up.
fn resolved_state(resolved: bool) -> u8
    ensures state { result ≡ resolved_state resolved }
{
    if resolved { RESOLVED } else { INSTALLED }
}

/// The row of the system bundle.
fn system_row(alloc: Global) -> Result<BundleKept, AllocError>
    ensures system { IfOk result (λ row. row ≡ kept_of first_world [] the_system_bundle) }
{
    let revision = system_revision(alloc)?;
    // Copied, since no field can be moved out of a value whose type has a `Drop` of its own.
    let (name, version) = copy_two(&revision.name, &revision.version, alloc)?;
    Ok(BundleKept {
        bundle: BundleId(0),
        location: Text::empty(),
        name,
        version,
        fragment: false,
        row: 0,
        state: ACTIVE,
        by: None,
    })
}
