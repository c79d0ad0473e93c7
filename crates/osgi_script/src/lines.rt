//! What the lines of a script are.

ghost use Rattle.std.specs.Prelude.{◌≡◌, IfOk};
ghost use Rattle.osgi_script.specs.computed.ScriptReader.{head_or_bad, line_of};
ghost use Rattle.osgi_script.specs.computed.HeadReader.{head_of};

use crate::heads::head;
use crate::statements::statement;
use osgi_ops::Section;
use osgi_session::Statement;
use osgi_syntax::says_nothing;
use std::alloc::{AllocError, Global};

/// What a line of a script is.
#[derive(Drop)]
pub enum ScriptLine {
    /// Nothing, or a comment.
    Empty,
    /// The head of a section.
    Head(Section),
    Statement(Statement),
    /// Something outside the grammar.
    Bad,
}

fn head_line(alloc: Global, text: &[u8]) -> Result<ScriptLine, AllocError>
    ensures line { IfOk result (λ line. line ≡ head_or_bad (head_of text.now)) }
{
    match head(alloc, text)? {
        Some(section) => Ok(ScriptLine::Head(section)),
        None => Ok(ScriptLine::Bad),
    }
}

/// Reads what a line is.
pub fn script_line(alloc: Global, text: &[u8]) -> Result<ScriptLine, AllocError>
    ensures line { IfOk result (λ line. line ≡ line_of text.now) }
{
    if says_nothing(text) {
        return Ok(ScriptLine::Empty);
    }
    match statement(alloc, text)? {
        Some(statement) => Ok(ScriptLine::Statement(statement)),
        None => head_line(alloc, text),
    }
}
