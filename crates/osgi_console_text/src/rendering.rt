//! The text of a session.

ghost use Rattle.std.specs.Prelude.{◌≡◌, ◌++◌, ◌∷◌, [], false, List, IfOk, OnOk, option_copied, unwrap_or};
ghost use Rattle.osgi_brackets.specs.Open.{StandsFor};
ghost use Rattle.osgi_ops.specs.Levels.{moved_to};
ghost use Rattle.osgi_ops.specs.declared.entry.Entry.{Entry};
ghost use Rattle.osgi_session.specs.Rendering.{depth, entry_lines, lines_at, peek_text, render, takes_no_job};
ghost use Rattle.osgi_console_text.specs.computed.Texts.{AreTextsOf, has_ended, line_text_by, run_text, text_at, written};

use crate::entries::add_entry;
use crate::lines::add_peek;
use osgi_base::Text;
use osgi_brackets::Brackets;
use osgi_ops::{Entry, Op, Peek, Reply};
use osgi_session::{Content, Line};
use std::alloc::{AllocError, Global};
use std::collections::BTreeMap;

/// The active start level of a history without entries.
const FIRST_LEVEL: u8 = 1;

/// What the peeks of a line write, and then its entries.
#[derive(Drop)]
struct LineText {
    text: Vec<u8>,
    /// Whether the last of the entries found no job to take, with which the line's run ends.
    has_ended: bool,
}

/// How deep an entry stands: how many brackets of its caller are open before it, or after it where these are fewer.
fn depth_of(brackets: &mut Brackets, entry: &Entry) -> Result<usize, AllocError>
    ensures depth { (history : List Entry)
        → StandsFor history brackets.old
        → IfOk result (λ d. d ≡ depth history entry.now) }
    ensures follows { (history : List Entry)
        → StandsFor history brackets.old
        → OnOk result (StandsFor (history ++ entry.now ∷ []) brackets.new) }
{
    let caller = entry.tag.caller;
    let before = brackets.depth(caller);
    brackets.follow(entry)?;
    let after = brackets.depth(caller);
    Ok(if before < after { before } else { after })
}

/// The active start level after an entry.
fn level_after(level: u8, entry: &Entry) -> u8
    ensures level { result ≡ unwrap_or (moved_to entry.now.op entry.now.reply) level }
{
    match &entry.op {
        Op::MoveLevel { to } => { if entry.reply.is_refusal() { level } else { *to } }
        _ => level,
    }
}

/// Whether an entry found no job to take.
fn takes_no_job(entry: &Entry) -> bool
    ensures takes { result ≡ takes_no_job entry.now.op entry.now.reply }
{
    matches!((&entry.op, &entry.reply), (Op::TakeJob, Reply::NoJob))
}

/// What was written of a line so far.
fn text_so_far(alloc: Global, line: Option<LineText>) -> Vec<u8>
    ensures text { result.items ≡ written line }
{
    match line {
        Some(LineText { text, .. }) => text,
        None => Vec::new(alloc),
    }
}

/// What a line's peeks write with one more of them, from what those before it write.
fn with_peek(alloc: Global, line: Option<LineText>, peek: &Peek) -> Result<LineText, AllocError>
    ensures text { IfOk result (λ more.
        more.text.items ≡ written line ++ peek_text peek.now) }
    ensures ended { IfOk result (λ more. more.has_ended ≡ false) }
{
    let mut text = text_so_far(alloc, line);
    add_peek(&mut text, peek)?;
    Ok(LineText {
        text,
        has_ended: false,
    })
}

/// What a line writes with one more of its entries, from what its peeks and the entries before it write.
fn with_entry(
    alloc: Global,
    line: Option<LineText>,
    depth: usize,
    level: u8,
    entry: &Entry,
) -> Result<LineText, AllocError>
    ensures text { IfOk result (λ more.
        more.text.items
        ≡ written line ++ lines_at depth (entry_lines level entry.now.op entry.now.reply)) }
    ensures ended { IfOk result (λ more.
        more.has_ended ≡ takes_no_job entry.now.op entry.now.reply) }
{
    let mut text = text_so_far(alloc, line);
    add_entry(alloc, &mut text, depth, level, entry)?;
    Ok(LineText {
        text,
        has_ended: takes_no_job(entry),
    })
}

/// What the peeks of each line write, under the number of the line.
fn peeked(alloc: Global, peeks: &[Peek]) -> Result<BTreeMap<u32, LineText>, AllocError>
    ensures texts { IfOk result (AreTextsOf [] peeks.now) }
{
    let mut texts = BTreeMap::new(alloc);
    for peek in peeks {
        let number = peek.tag.command;
        // Taken out and put back: what the map then holds has a contract, which a loan into it has not.
        let text = with_peek(alloc, texts.remove(&number), peek)?;
        texts.insert(number, text)?;
    }
    Ok(texts)
}

/// What the peeks and then the entries of each line write, under the number of the line.
fn texts(
    alloc: Global,
    entries: &[Entry],
    peeks: &[Peek],
) -> Result<BTreeMap<u32, LineText>, AllocError>
    ensures texts { IfOk result (AreTextsOf entries.now peeks.now) }
{
    let mut texts = peeked(alloc, peeks)?;
    let mut brackets = Brackets::new(alloc);
    let mut level = FIRST_LEVEL;
    for entry in entries {
        let number = entry.tag.command;
        let depth = depth_of(&mut brackets, entry)?;
        // Taken out and put back, as in `peeked`.
        let text = with_entry(alloc, texts.remove(&number), depth, level, entry)?;
        texts.insert(number, text)?;
        level = level_after(level, entry);
    }
    Ok(texts)
}

/// Adds what a line with a command writes.
fn add_run(out: &mut Vec<u8>, text: Option<&LineText>) -> Result<(), AllocError>
    ensures added { OnOk result
        (out.new.items
        ≡ out.old.items ++ run_text (written (option_copied text.entry))
        (has_ended (option_copied text.entry))) }
{
    let Some(line) = text else {
        return out.extend_from_slice(b"full\n");
    };
    out.extend_from_slice(line.text.as_slice())?;
    if line.has_ended {
        return Ok(());
    }
    out.extend_from_slice(b"full\n")
}

/// Adds what a line writes.
fn add_line(
    out: &mut Vec<u8>,
    line: &Line,
    texts: &BTreeMap<u32, LineText>,
) -> Result<(), AllocError>
    ensures added { OnOk result
        (out.new.items
        ≡ out.old.items ++ line_text_by line.now.content (text_at texts.now line.now.number)) }
{
    match &line.content {
        Content::Empty | Content::Join => Ok(()),
        Content::Bad => out.extend_from_slice(b"syntax\n"),
        Content::Run(_) => add_run(out, texts.get(&line.number)),
    }
}

/// The text of a session: what its lines write, in input order.
///
/// A line with a command writes its peeks, in the order in which they are given, and then its entries. An entry writes its
/// lines after two spaces for each bracket of its caller that it stands in. A line with a command ends with `full` exactly
/// where its entries do not end with one that found no job to take.
///
/// The cost is near linear in the lines, entries and peeks together.
pub fn render(
    alloc: Global,
    lines: &[Line],
    entries: &[Entry],
    peeks: &[Peek],
) -> Result<Text, AllocError>
    ensures text { IfOk result (λ text. text ≡ render lines.now entries.now peeks.now) }
{
    let texts = texts(alloc, entries, peeks)?;
    let mut out = Vec::new(alloc);
    for line in lines {
        add_line(&mut out, line, &texts)?;
    }
    Text::from_vec(alloc, out)
}
