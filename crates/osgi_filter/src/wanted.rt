//! A test with what its text reads as, which is read once for all elements of a list.

ghost use Rattle.std.specs.Prelude.{◌≡◌, Some};
ghost use Rattle.std.specs.Option.{option_and_then, option_map};
ghost use Rattle.osgi_model.specs.computed.LongReader.{long_of};
ghost use Rattle.osgi_model.specs.computed.MatchReader.{long_order, order_passes, version_order};
ghost use Rattle.osgi_version.specs.VersionReading.{parts_of};
ghost use Rattle.osgi_version.specs.VersionValues.{order, parts};
ghost use Rattle.osgi_filter.specs.computed.Spelled.{spelled};
ghost use Rattle.osgi_filter.specs.computed.Ordered.{read_by};

use crate::ordered::{compare_number, number_of, passes_by_order, text_of};
use crate::spelled::{SpelledVersion, read_version};
use osgi_model::Test;
use osgi_version::Version;
use std::cmp::Ordering;
use std::marker::Model;

/// What a text reads as by some type: not read yet, or the value, if it is one.
#[derive(Clone, Copy)]
pub enum Reading<V> {
    Unread,
    Read(Option<V>),
}

/// A test with what its text reads as by the types that are ordered. Contracts see the test.
#[derive(Drop)]
pub struct Wanted<'a> {
    test: &'a Test,
    number: Reading<i64>,
    version: Reading<SpelledVersion<'a>>,
}

impl<'a> Model for Wanted<'a> {
    ghost use Rattle.std.specs.Prelude.{◌≡◌};
    ghost use Rattle.std.specs.Coded.{codes};
    ghost use Rattle.std.specs.Option.{option_map};
    ghost use Rattle.osgi_model.specs.contracts.filter.Test as tests;
    ghost use Rattle.osgi_model.specs.computed.LongReader.{long_of};
    ghost use Rattle.osgi_model.specs.declared.filter.Test.{Test};
    ghost use Rattle.osgi_version.specs.VersionReading.{parts_of};
    ghost use Rattle.osgi_filter.specs.computed.Spelled.{spelled};
    ghost use Rattle.osgi_filter.specs.computed.Ordered.{read_by};
    ghost use Rattle.osgi_filter.specs.computed.Wanted.{IsReadAs};

    ghost Value = { Test };

    ghost coded = { Prim.hlevel (codes, tests.the_row.coded) };

    ghost view = { λ w. w.test.now };

    ghost invariant = { λ w. IsReadAs (λ read. read ≡ read_by long_of w.test.now) w.number × IsReadAs (λ read. option_map spelled read ≡ read_by parts_of w.test.now) w.version };
}

fn version_of(test: &Test) -> Option<SpelledVersion>
    ensures version { option_map spelled result ≡ read_by parts_of test.now }
{
    match text_of(test) {
        Some(text) => read_version(text.bytes()),
        None => None,
    }
}

/// How a version stands to the one that was read.
fn compare_version(given: &Version, read: Option<SpelledVersion>) -> Option<Ordering>
    ensures order { result ≡ option_and_then (λ version. Some (order (parts given.now) version)) (option_map spelled read.entry) }
{
    let version = read?;
    Some(version.order_of(given))
}

impl<'a> Wanted<'a> {
    pub fn new(test: &'a Test) -> Wanted<'a>
        ensures test { result ≡ test.now }
    {
        Wanted {
            test,
            number: Reading::Unread,
            version: Reading::Unread,
        }
    }

    pub fn test(&self) -> &Test
        ensures test { result.now ≡ self.now }
    {
        self.test
    }

    /// The number that the text reads as.
    fn number(&mut self) -> Option<i64>
        ensures number { result ≡ read_by long_of self.old }
        ensures same { self.new ≡ self.old }
    {
        if let Reading::Read(number) = self.number {
            return number;
        }
        let number = number_of(self.test);
        self.number = Reading::Read(number);
        number
    }

    /// The version that the text reads as.
    fn version(&mut self) -> Option<SpelledVersion<'a>>
        ensures version { option_map spelled result ≡ read_by parts_of self.old }
        ensures same { self.new ≡ self.old }
    {
        if let Reading::Read(version) = self.version {
            return version;
        }
        let version = version_of(self.test);
        self.version = Reading::Read(version);
        version
    }

    /// Whether a number passes the test.
    pub fn number_passes(&mut self, given: i64) -> bool
        ensures passes { result ≡ order_passes (long_order given) self.old }
        ensures same { self.new ≡ self.old }
    {
        let number = self.number();
        passes_by_order(self.test, compare_number(given, number))
    }

    /// Whether a version passes the test.
    pub fn version_passes(&mut self, given: &Version) -> bool
        ensures passes { result ≡ order_passes (version_order (parts given.now)) self.old }
        ensures same { self.new ≡ self.old }
    {
        let version = self.version();
        passes_by_order(self.test, compare_version(given, version))
    }
}
