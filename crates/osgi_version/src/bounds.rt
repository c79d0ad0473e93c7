//! The two version texts of a range text, by what the last state of its machine counts.

ghost use Rattle.std.specs.Prelude.{◌≡◌, ◌≤◌, Some, true, length, MatchOption};
ghost use Rattle.osgi_version.specs.computed.RangeCut.{IsRangeCut};
ghost use Rattle.osgi_version.specs.computed.RangeMachine.{step_range, is_fine_range, may_end_range, held_range};
ghost use Rattle.osgi_version.specs.computed.Run.{run, advance};
ghost use Rattle.osgi_version.specs.Versions.{IsReadableVersion};
ghost use Rattle.osgi_version.specs.declared.range_state.RangeState.TheVariants.{Before};

use crate::range_state::RangeState;

/// The version texts of a range in brackets, and whether the brackets let them in.
#[derive(Clone, Copy)]
pub struct Bounds<'a> {
    pub low: &'a [u8],
    pub low_in: bool,
    pub high: &'a [u8],
    pub high_in: bool,
}

/// The bounds of a range text, or nothing where it is a plain version.
pub fn cut(bytes: &[u8], state: RangeState) -> Option<Bounds>
    requires held { held_range state ≤ length bytes.now }
    requires runs { run (advance is_fine_range step_range true) (Before 0) bytes.now ≡ Some state }
    requires end { may_end_range state ≡ true }
    ensures parts { MatchOption result (IsReadableVersion bytes.now) (λ b. IsRangeCut bytes.now b.low_in b.low.now b.high.now b.high_in) }
{
    match state {
        RangeState::Closed(k, n, h, _) => {
            let behind_lead = bytes.split_at(k).1;
            let (low, behind_low) = behind_lead.split_at(1).1.split_at(n);
            let (high, behind_high) = behind_low.split_at(1).1.split_at(h);
            Some(Bounds {
                low,
                low_in: behind_lead[0] == b'[',
                high,
                high_in: behind_high[0] == b']',
            })
        }
        _ => None,
    }
}
