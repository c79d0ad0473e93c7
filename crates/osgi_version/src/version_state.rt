//! The machine that reads a version, byte by byte. What runs once a byte is inlined.

ghost use Rattle.std.specs.Prelude.{◌≡◌, ◌<◌, ◌+◌};
ghost use Rattle.osgi_version.specs.Versions.{IsReadableVersion, IsSpelledVersion};
ghost use Rattle.osgi_version.specs.computed.VersionMachine.{more, in_number, if_digit, if_blank, if_word, step, next, is_fine, is_fine_number, may_end, held};
ghost use Rattle.osgi_version.specs.declared.version_state.VersionState.TheVariants.{Lead};

use crate::bytes::{Class, class_of};
use crate::reader::Reader;
use crate::version::MAX_NUMBER;

/// What was read of a version: its numbers so far, how many bytes its qualifier has, and how many blanks follow.
#[derive(Clone, Copy)]
pub enum VersionState {
    /// Nothing or blanks.
    Lead,
    Major(u32),
    MinorDot(u32),
    Minor(u32, u32),
    MicroDot(u32, u32),
    Micro(u32, u32, u32),
    QualifierDot(u32, u32, u32),
    Qualifier(u32, u32, u32, usize),
    /// Blanks after the version.
    Trail(u32, u32, u32, usize, usize),
}

/// The number with one more digit; one that is too large stays just above the greatest.
#[inline(always)]
fn more(n: u32, b: u8) -> u32
    ensures number { result ≡ more n b }
{
    let digit = u64::from(b.saturating_sub(b'0'));
    (10 * u64::from(n) + digit).min(u64::from(MAX_NUMBER) + 1) as u32
}

#[inline(always)]
fn fits(n: u32) -> bool
    ensures fits { result ≡ is_fine_number n }
{
    n <= MAX_NUMBER
}

/// In a number: it grows, or a dot or a blank ends it.
#[inline(always)]
fn in_number(
    class: Class,
    grown: VersionState,
    dotted: VersionState,
    ended: VersionState,
) -> Option<VersionState>
    ensures next { result ≡ in_number class grown dotted ended }
{
    match class {
        Class::Digit => Some(grown),
        Class::Dot => Some(dotted),
        Class::Blank => Some(ended),
        _ => None,
    }
}

#[inline(always)]
fn if_digit(class: Class, after: VersionState) -> Option<VersionState>
    ensures next { result ≡ if_digit class after }
{
    match class {
        Class::Digit => Some(after),
        _ => None,
    }
}

#[inline(always)]
fn if_blank(class: Class, after: VersionState) -> Option<VersionState>
    ensures next { result ≡ if_blank class after }
{
    match class {
        Class::Blank => Some(after),
        _ => None,
    }
}

#[inline(always)]
fn if_word(class: Class, after: VersionState) -> Option<VersionState>
    ensures next { result ≡ if_word class after }
{
    match class {
        Class::Digit | Class::Letter => Some(after),
        _ => None,
    }
}

impl VersionState {
    /// The state after a byte of this class.
    #[inline(always)]
    fn next(self, b: u8, class: Class) -> Option<VersionState>
        requires room { held self < usize.MAX }
        ensures next { result ≡ next self b class }
    {
        use VersionState::*;
        match self {
            Lead => match class {
                Class::Blank => Some(Lead),
                _ => if_digit(class, Major(more(0, b))),
            },
            Major(m) => in_number(class, Major(more(m, b)), MinorDot(m), Trail(m, 0, 0, 0, 1)),
            MinorDot(m) => if_digit(class, Minor(m, more(0, b))),
            Minor(m, i) => {
                let grown = Minor(m, more(i, b));
                in_number(class, grown, MicroDot(m, i), Trail(m, i, 0, 0, 1))
            }
            MicroDot(m, i) => if_digit(class, Micro(m, i, more(0, b))),
            Micro(m, i, c) => {
                let grown = Micro(m, i, more(c, b));
                in_number(class, grown, QualifierDot(m, i, c), Trail(m, i, c, 0, 1))
            }
            QualifierDot(m, i, c) => if_word(class, Qualifier(m, i, c, 1)),
            Qualifier(m, i, c, k) => match class {
                Class::Blank => Some(Trail(m, i, c, k, 1)),
                _ => if_word(class, Qualifier(m, i, c, k + 1)),
            },
            Trail(m, i, c, k, w) => if_blank(class, Trail(m, i, c, k, w + 1)),
        }
    }
}

impl Reader for VersionState {
    ghost start = { Lead };

    ghost step = { step };

    ghost is_fine = { is_fine };

    ghost may_end = { may_end };

    ghost held = { held };

    ghost spelled = { IsSpelledVersion };

    ghost readable = { IsReadableVersion };

    #[inline(always)]
    fn start() -> VersionState {
        VersionState::Lead
    }

    #[inline(always)]
    fn step(self, b: u8) -> Option<VersionState> {
        self.next(b, class_of(b))
    }

    #[inline(always)]
    fn is_fine(self) -> bool {
        match self {
            VersionState::Lead => true,
            VersionState::Major(m) => fits(m),
            VersionState::MinorDot(m) => fits(m),
            VersionState::Minor(m, i) => fits(m) && fits(i),
            VersionState::MicroDot(m, i) => fits(m) && fits(i),
            VersionState::Micro(m, i, c) => fits(m) && fits(i) && fits(c),
            VersionState::QualifierDot(m, i, c) => fits(m) && fits(i) && fits(c),
            VersionState::Qualifier(m, i, c, _) => fits(m) && fits(i) && fits(c),
            VersionState::Trail(m, i, c, _, _) => fits(m) && fits(i) && fits(c),
        }
    }

    #[inline(always)]
    fn may_end(self) -> bool {
        match self {
            VersionState::MinorDot(_) => false,
            VersionState::MicroDot(_, _) => false,
            VersionState::QualifierDot(_, _, _) => false,
            _ => true,
        }
    }
}
