//! The machine that reads a range, byte by byte, over the one that reads a version. What runs once a byte is inlined.

ghost use Rattle.std.specs.Prelude.{◌<◌, ◌+◌};
ghost use Rattle.osgi_version.specs.computed.RangeMachine.{step_range, is_fine_range, may_end_range, held_range};
ghost use Rattle.osgi_version.specs.Ranges.{IsSpelledRange, IsReadableRange};
ghost use Rattle.osgi_version.specs.computed.VersionMachine.{held};
ghost use Rattle.osgi_version.specs.declared.range_state.RangeState.TheVariants.{Before};

use crate::bytes::{Class, class_of};
use crate::reader::Reader;
use crate::version_state::VersionState;

/// What was read of a range: how many bytes each part has, and the state in its version.
#[derive(Clone, Copy)]
pub enum RangeState {
    /// So many blanks.
    Before(usize),
    /// A version without brackets.
    Plain(VersionState),
    /// In the low version: blanks before the bracket, bytes of the version.
    Low(usize, usize, VersionState),
    /// In the high version: the same two, and the bytes of this version.
    High(usize, usize, usize, VersionState),
    /// After the closing bracket: the same three, and the blanks at the end.
    Closed(usize, usize, usize, usize),
}

impl Reader for RangeState {
    ghost start = { Before 0 };

    ghost step = { step_range };

    ghost is_fine = { is_fine_range };

    ghost may_end = { may_end_range };

    ghost held = { held_range };

    ghost spelled = { IsSpelledRange };

    ghost readable = { IsReadableRange };

    #[inline(always)]
    fn start() -> RangeState {
        RangeState::Before(0)
    }

    #[inline(always)]
    fn step(self, b: u8) -> Option<RangeState> {
        let class = class_of(b);
        match self {
            RangeState::Before(k) => match class {
                Class::Blank => Some(RangeState::Before(k + 1)),
                Class::Digit => Some(RangeState::Plain(VersionState::Lead.step(b)?)),
                Class::Open => Some(RangeState::Low(k, 0, VersionState::Lead)),
                _ => None,
            },
            RangeState::Plain(v) => Some(RangeState::Plain(v.step(b)?)),
            RangeState::Low(k, n, v) => match class {
                Class::Comma if v.may_end() => {
                    Some(RangeState::High(k, n, 0, VersionState::Lead))
                }
                Class::Comma => None,
                _ => Some(RangeState::Low(k, n + 1, v.step(b)?)),
            },
            RangeState::High(k, n, h, v) => match class {
                Class::Close if v.may_end() => Some(RangeState::Closed(k, n, h, 0)),
                Class::Close => None,
                _ => Some(RangeState::High(k, n, h + 1, v.step(b)?)),
            },
            RangeState::Closed(k, n, h, w) => match class {
                Class::Blank => Some(RangeState::Closed(k, n, h, w + 1)),
                _ => None,
            },
        }
    }

    #[inline(always)]
    fn is_fine(self) -> bool {
        match self {
            RangeState::Before(_) => true,
            RangeState::Plain(v) => v.is_fine(),
            RangeState::Low(_, _, v) => v.is_fine(),
            RangeState::High(_, _, _, v) => v.is_fine(),
            RangeState::Closed(_, _, _, _) => true,
        }
    }

    #[inline(always)]
    fn may_end(self) -> bool {
        match self {
            RangeState::Before(_) => true,
            RangeState::Plain(v) => v.may_end(),
            RangeState::Low(_, _, _) => false,
            RangeState::High(_, _, _, _) => false,
            RangeState::Closed(_, _, _, _) => true,
        }
    }
}
