//! A source read to its end.

ghost use Rattle.std.specs.Prelude.{◌≤◌, IfOk};
ghost use Rattle.osgi_outside.specs.Inputs.{IsInput};

use crate::source::Source;
use osgi_base::Text;
use std::alloc::{AllocError, Global};

/// What came of reading a source to its end.
#[derive(Drop, PartialEq, Eq)]
pub enum Input {
    /// All bytes that the source had left.
    All(Text),
    /// More bytes came than were wanted.
    TooMuch,
    /// A read failed.
    Failed,
}

/// How many bytes are asked for at once.
const PIECE: usize = 16_384;

/// Reads to the end of the source, or until more than `limit` bytes came.
pub fn read_all<S: Source>(alloc: Global, source: &mut S, limit: usize) -> Result<Input, AllocError>
    ensures later { S.faults source.old ≤ S.faults source.new }
    ensures input { IfOk result (IsInput limit (S.left source.old) (S.left source.new) (S.faults source.old) (S.faults source.new)) }
{
    let mut all = Vec::new(alloc);
    let mut piece = [0u8; PIECE];
    while all.len() <= limit {
        match source.read(&mut piece) {
            Err(_) => return Ok(Input::Failed),
            Ok(0) => return Ok(Input::All(Text::from_vec(alloc, all)?)),
            Ok(count) => all.extend_from_slice(&piece[..count])?,
        }
    }
    Ok(Input::TooMuch)
}
