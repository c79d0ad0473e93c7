//! Which values pass a test.

ghost use Rattle.std.specs.Prelude.{◌≡◌, map};
ghost use Rattle.osgi_model.specs.computed.MatchReader as reader;

use crate::approx::is_approx;
use crate::ordered::{number_passes, version_passes};
use crate::pieces::stand;
use crate::wanted::Wanted;
use osgi_base::Text;
use osgi_model::{Test, Value};

fn text_passes(test: &Test, given: &Text) -> bool
    ensures passes { result ≡ reader.text_passes test.now given.now }
{
    match test {
        Test::Equal(text) => given == text,
        Test::Approx(text) => is_approx(given.bytes(), text.bytes()),
        Test::AtLeast(text) => given.cmp(text).is_ge(),
        Test::AtMost(text) => given.cmp(text).is_le(),
        Test::Present => true,
        Test::Pieces(pieces) => stand(pieces.items(), given.bytes()),
    }
}

/// Whether the value passes the test, a list where one of its elements does.
pub fn passes(test: &Test, given: &Value) -> bool
    ensures passes { result ≡ reader.passes test.now given.now }
{
    match given {
        Value::Text(text) => text_passes(test, text),
        Value::Long(number) => number_passes(test, *number),
        Value::Version(version) => version_passes(test, version),
        Value::List(values) => one_passes(&mut Wanted::new(test), values.items()),
    }
}

/// Whether an element passes, which may be a list too.
#[cycle(passes)]
fn element_passes(wanted: &mut Wanted, given: &Value) -> bool
    ensures passes { result ≡ reader.passes wanted.old given.now }
    ensures same { wanted.new ≡ wanted.old }
{
    match given {
        Value::Text(text) => text_passes(wanted.test(), text),
        Value::Long(number) => wanted.number_passes(*number),
        Value::Version(version) => wanted.version_passes(version),
        Value::List(values) => one_passes(wanted, values.items()),
    }
}

#[cycle(passes)]
fn one_passes(wanted: &mut Wanted, values: &[Value]) -> bool
    ensures passes { result ≡ reader.one_of (map (reader.passes wanted.old) values.now) }
    ensures same { wanted.new ≡ wanted.old }
{
    for value in values {
        if element_passes(wanted, value) {
            return true;
        }
    }
    false
}
