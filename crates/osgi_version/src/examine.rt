//! The state at the end of a text that reads, or the fault of one that does not.

ghost use Rattle.std.specs.Prelude.{◌≡◌, ◌-◌, ◌<◌, ◌≤◌, Some, true, MatchResult, length, drop, slice_index};
ghost use Rattle.osgi_version.specs.Bytes.{Each, IsDigit};
ghost use Rattle.osgi_version.specs.Faults.{IsFault};
ghost use Rattle.osgi_version.specs.computed.Reader.{IsReader};
ghost use Rattle.osgi_version.specs.computed.Run.{run, advance};

use crate::fault::VersionFault;
use crate::reader::{Reader, scan};

/// Where the digits begin that end the bytes.
fn number_start(bytes: &[u8]) -> usize
    ensures within { result ≤ length bytes.now }
    ensures digits { Each IsDigit (drop result bytes.now) }
    ensures apart { 0 < result → IsDigit (slice_index bytes.now (result - 1)) → ⊥ }
{
    let mut start = bytes.len();
    while start > 0 && bytes[start - 1].is_ascii_digit() {
        start -= 1;
    }
    start
}

/// Reads strictly, and where that stops inside, once more without the limits: if the text is spelled right, the number
/// in which the first reading stopped is too large.
pub fn examine<M: Reader>(bytes: &[u8]) -> Result<M, VersionFault>
    requires reader { IsReader M M.is_fine M.step M.may_end M.start M.spelled M.readable }
    ensures state { MatchResult result (λ s. (M.held s ≤ length bytes.now) × (run (advance M.is_fine M.step true) M.start bytes.now ≡ Some s) × (M.may_end s ≡ true)) (IsFault M.spelled M.readable bytes.now) }
{
    let (state, at) = scan::<M>(true, bytes);
    if at == bytes.len() {
        if state.may_end() {
            return Ok(state);
        }
        return Err(VersionFault::NotVersion { at: at as u64 });
    }
    let (last, end) = scan::<M>(false, bytes);
    if end == bytes.len() && last.may_end() {
        let begin = number_start(bytes.split_at(at).0);
        return Err(VersionFault::TooBig { at: begin as u64 });
    }
    Err(VersionFault::NotVersion { at: at as u64 })
}
