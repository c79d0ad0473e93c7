//! Scripts, read line by line.

ghost use Rattle.std.specs.Prelude.{◌≡◌, ◌<◌, ◌≤◌, false, [], ◌∷◌, ◌++◌, length, None, Some, IfOk, OnOk, MatchBool, MatchResult, Ok, Err};
ghost use Rattle.std.specs.Str.Lines.{lines};
ghost use Rattle.osgi_script.specs.Scripts.{IsScriptFault, ReadsScript};
ghost use Rattle.osgi_script.specs.computed.ScriptReader as spec;
ghost use Rattle.osgi_script.specs.computed.ScriptReader.{AreTaken, IsAdded, line_of, script_of};
ghost use Rattle.osgi_script.specs.declared.lines.ScriptLine.TheVariants as line;
ghost use Rattle.osgi_session.specs.declared.script.Script.{Script};
ghost use Rattle.osgi_script.specs.declared.script.ScriptFault.{ScriptFault};
ghost use Rattle.osgi_script.specs.declared.script.TheConstants.{MAX_STATEMENTS};

use crate::lines::{ScriptLine, script_line};
use crate::script::{MAX_STATEMENTS, ScriptFault};
use crate::taken::Taken;
use osgi_base::List;
use osgi_ops::Section;
use osgi_session::{Part, Script, Statement};
use osgi_syntax::split_line;
use std::alloc::{AllocError, Global};

/// Adds a section without statements.
fn add_section(alloc: Global, parts: &mut Vec<Part>, section: Section) -> Result<(), AllocError>
    ensures added { OnOk result (parts.new.items ≡ parts.old.items ++ spec.opened section ∷ []) }
{
    let statements = List::new(alloc)?;
    parts.push(Part {
        section,
        statements,
    })?;
    Ok(())
}

/// Adds a statement; false where there are as many as there may be. It may be any value: so no exit has to drop a statement,
/// whose many variants are dear to prove.
fn push_statement<T: Drop>(statements: &mut List<T>, statement: T) -> Result<bool, AllocError>
    ensures added { IfOk result (λ added.
        MatchBool added
        ((length statements.old < MAX_STATEMENTS)
        × (statements.new ≡ statements.old ++ statement ∷ []))
        (MAX_STATEMENTS ≤ length statements.old)) }
{
    if statements.items().len() >= MAX_STATEMENTS {
        return Ok(false);
    }
    statements.push(statement)?;
    Ok(true)
}

/// Adds a statement to the last section; false where there is none, or it has as many as it may have.
fn add_statement(parts: &mut [Part], statement: Statement) -> Result<bool, AllocError>
    ensures added { IfOk result (λ added.
        MatchBool added (spec.add_statement statement parts.old ≡ Some parts.new)
        (spec.add_statement statement parts.old ≡ None)) }
{
    match parts.last_mut() {
        Some(part) => push_statement(&mut part.statements, statement),
        None => Ok(refuse(statement)),
    }
}

/// Drops a value, and says false.
fn refuse<T: Drop>(_value: T) -> bool
    ensures refused { result ≡ false }
{
    false
}

/// Adds the head of a section; false where the section has one already.
fn add_head(
    alloc: Global,
    taken: &mut Taken,
    parts: &mut Vec<Part>,
    section: Section,
) -> Result<bool, AllocError>
    ensures added { AreTaken taken.old parts.old.items
        → IfOk result (IsAdded taken.new parts.old.items parts.new.items (line.Head section)) }
{
    if !taken.take(alloc, &section)? {
        return Ok(false);
    }
    add_section(alloc, parts, section)?;
    Ok(true)
}

/// Adds what a line says; false where it cannot stand there in any script.
fn add_line(
    alloc: Global,
    taken: &mut Taken,
    parts: &mut Vec<Part>,
    text: &[u8],
) -> Result<bool, AllocError>
    ensures added { AreTaken taken.old parts.old.items
        → IfOk result (IsAdded taken.new parts.old.items parts.new.items (line_of text.now)) }
{
    match script_line(alloc, text)? {
        ScriptLine::Empty => Ok(true),
        ScriptLine::Head(section) => add_head(alloc, taken, parts, section),
        ScriptLine::Statement(statement) => add_statement(parts.as_mut_slice(), statement),
        ScriptLine::Bad => Ok(false),
    }
}

fn read(alloc: Global, bytes: &[u8]) -> Result<Result<Script, ScriptFault>, AllocError>
    ensures answer { IfOk result (λ answer. answer ≡ script_of (lines bytes.now)) }
{
    let mut taken = Taken::new(alloc);
    let mut parts = Vec::new(alloc);
    let mut line: u64 = 0;
    let mut rest = bytes;
    while let Some((text, left)) = split_line(rest) {
        line += 1;
        if !add_line(alloc, &mut taken, &mut parts, text)? {
            return Ok(Err(ScriptFault { line }));
        }
        rest = left;
    }
    Ok(Ok(Script {
        sections: List::from(parts),
    }))
}

/// The script that a text reads as, or the first line that cannot stand there in any script.
///
/// A script is section heads, `start:`, `stop:`, `on NAME:` and `job NAME:`, each at most once, and after each head at most 256
/// statements, a line each. Lines of spaces, and lines whose first byte besides spaces is `#`, may stand anywhere. A line ends
/// by LF or CRLF; the last one need not. Lines are counted from 1.
pub fn parse(alloc: Global, bytes: &[u8]) -> Result<Result<Script, ScriptFault>, AllocError>
    ensures reads { IfOk result (λ r.
        MatchResult r (ReadsScript bytes.now) (IsScriptFault bytes.now)) }
    ensures only { (other : Script)
        → ReadsScript bytes.now other
        → IfOk result (λ r. r ≡ Ok other) }
    ensures fault { (other : ScriptFault)
        → IsScriptFault bytes.now other
        → IfOk result (λ r. r ≡ Err other) }
{
    read(alloc, bytes)
}
