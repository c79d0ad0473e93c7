//! Bytes written whole.

ghost use Rattle.std.specs.Prelude.{◌≡◌, OnOk};
ghost use Rattle.osgi_outside.specs.Causes.{HasCause};
ghost use Rattle.osgi_outside.specs.Ends.{WritesWhole};

use crate::sink::Sink;
use crate::source::Failed;

/// Writes all bytes and flushes. Where a write or the flush failed, the bytes up to some place were
/// written.
#[tactic(auto, using(crate::proofs::Written::grown))]
pub fn write_all<K: Sink>(sink: &mut K, bytes: &[u8]) -> Result<(), Failed>
    ensures bytes { WritesWhole (K.written sink.old) (K.written sink.new) result bytes.now }
    ensures flushed { OnOk result (K.flushed sink.new ≡ K.written sink.new) }
    ensures cause { HasCause (K.faults sink.old) (K.faults sink.new) result }
{
    let mut done = 0;
    while done < bytes.len() {
        done += sink.write(&bytes[done..])?;
    }
    sink.flush()
}
