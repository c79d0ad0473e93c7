//! How names are compared.

ghost use Rattle.std.specs.Prelude.{◌≡◌};
ghost use Rattle.std.specs.Cmp.Lexicographic.{slice_cmp};
ghost use Rattle.std.specs.Ordering.{nat_cmp};
ghost use Rattle.std.specs.Str.{str_to_ascii_lowercase};
ghost use Rattle.osgi_filter.specs.Names.{same_name};
ghost use Rattle.osgi_filter.specs.computed.Folded.{folded};

use osgi_base::Text;
use std::cmp::Ordering;

/// How the names of attributes are compared: with case, as those of capabilities, or without ASCII case, as those of
/// services.
#[derive(Clone, Copy, PartialEq, Eq)]
pub enum Case {
    Keep,
    Fold,
}

/// By the bytes without ASCII case.
fn order_without_case(a: &[u8], b: &[u8]) -> Ordering
    ensures order { result ≡ slice_cmp nat_cmp (str_to_ascii_lowercase a.now) (str_to_ascii_lowercase b.now) }
{
    let mut right = b;
    for x in a {
        let Some((y, others)) = right.split_first() else {
            return Ordering::Greater;
        };
        let order = x.to_ascii_lowercase().cmp(&y.to_ascii_lowercase());
        if order.is_ne() {
            return order;
        }
        right = others;
    }
    if right.is_empty() {
        Ordering::Equal
    } else {
        Ordering::Less
    }
}

impl Case {
    /// Whether two names are the same. It is asked of each attribute that an item looks at.
    #[inline(always)]
    pub fn is_same(self, a: &Text, b: &Text) -> bool
        ensures same { result ≡ same_name self a.now b.now }
    {
        match self {
            Case::Keep => *a == *b,
            Case::Fold => a.bytes().eq_ignore_ascii_case(b.bytes()),
        }
    }

    /// How names are ordered, by the bytes that are compared.
    pub(crate) fn order(self, a: &[u8], b: &[u8]) -> Ordering
        ensures order { result ≡ slice_cmp nat_cmp (folded self a.now) (folded self b.now) }
    {
        match self {
            Case::Keep => a.cmp(b),
            Case::Fold => order_without_case(a, b),
        }
    }
}
