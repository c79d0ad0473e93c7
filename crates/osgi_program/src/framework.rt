//! The top call: words and an input in, a text and a session out.

ghost use Rattle.std.specs.Prelude.{◌≡◌, ◌≤◌, ◌<◌, ◌↔◌, ◌⊎◌, [], length, None, Some, IfSome, OnSome, IsSomeAnd, IfOk};
ghost use Rattle.std.specs.List.{count_by, list_any};
ghost use Rattle.osgi_ops.specs.Replies.{is_refusal};
ghost use Rattle.osgi_ops.specs.Settings.{bounds_of};
ghost use Rattle.osgi_outside.specs.Causes.{Rose};
ghost use Rattle.osgi_program.specs.Outcome.{is_bad, status_of, text_of, IsAtLimit, IsSession, IsUncut, IsWritten, IsPartlyWritten, IsWrittenStatus, IsBareStatus};
ghost use Rattle.osgi_program.specs.Words.{bounds_in, Asks, Request};
ghost use Rattle.osgi_program.specs.computed.Ended.{hands, IsRun, status_by};
ghost use Rattle.osgi_session.specs.Rendering.{render};

use crate::lines::{Ran, run_lines};
use crate::session::{
    CUT, DONE, FAULTY_WORDS, Finished, INPUT_TOO_LONG, MAX_INPUT, NO_MEMORY, READ_FAILED, Session,
    TROUBLED, WRITE_FAILED,
};
use crate::words::run_limits;
use osgi_base::{List, Text};
use osgi_console::parse;
use osgi_console_text::render;
use osgi_core::Core;
use osgi_depot::read_depot;
use osgi_ops::{Entry, Limits, Reply};
use osgi_outside::{Gate, Input, Shelf, Sink, Source, read_all, write_all};
use osgi_session::{Content, Line};
use std::alloc::{AllocError, Global};
use std::sync::Wait;
use std::thread::Threads;

#[tactic(auto, unfolding(crate::specs::computed::Ended::hands))]
fn hands(entry: &Entry) -> bool
    ensures handing { result ≡ hands entry.now }
{
    matches!(entry.reply, Reply::Handed { .. })
}

/// How many entries handed an event to a listener.
fn handings(entries: &[Entry]) -> u64
    ensures count { result ≡ count_by hands entries.now }
{
    let mut count = 0;
    for entry in entries {
        if hands(entry) {
            count += 1;
        }
    }
    count
}

/// Reads the folders that the lines of an input name, and runs the lines on a new machine in a hall.
fn run_input<R: Threads + Wait + Sync, F: Shelf, G: Gate>(
    rt: &R,
    alloc: Global,
    limits: Limits,
    input: &[u8],
    shelf: &mut F,
    gate: &G,
) -> Result<(Ran, Session), AllocError>
    requires few { length input.now < u32.MAX }
    ensures told { F.told shelf.new ≡ F.told shelf.old }
    ensures later { F.faults shelf.old ≤ F.faults shelf.new }
    ensures run { IfOk result (λ r.
        IsRun (bounds_of limits) input.now
        (record
        { told = F.told shelf.old; before = F.faults shelf.old; after = F.faults shelf.new })
        r.0 r.1) }
{
    let lines = parse(alloc, input, 0)?;
    let folders = read_depot(alloc, lines.items(), shelf)?;
    let (stored, scripts) = folders.into_parts();
    let peeks = List::new(alloc)?;
    let core = Core::new(alloc, limits, stored)?;
    let (ran, core) = run_lines(rt, alloc, core, &scripts, lines.items(), gate)?;
    let (depot, entries) = core.into_parts();
    let session = Session {
        handings: handings(entries.items()),
        lines,
        entries,
        depot,
        scripts,
        peeks,
    };
    Ok((ran, session))
}

fn has_bad(lines: &[Line]) -> bool
    ensures bad { result ≡ list_any (λ line. is_bad line.content) lines.now }
{
    lines
        .iter()
        .any(|line| matches!(line.content, Content::Bad))
}

fn has_refusal(entries: &[Entry]) -> bool
    ensures refused { result ≡ list_any (λ e. is_refusal e.reply) entries.now }
{
    entries.iter().any(|entry| entry.reply.is_refusal())
}

/// The status of a session whose text was written.
fn status_by(ran: Ran, session: &Session) -> u8
    ensures status { result ≡ status_by ran session.now }
{
    if ran == Ran::Cut {
        CUT
    } else if has_bad(session.lines.items()) || has_refusal(session.entries.items()) {
        TROUBLED
    } else {
        DONE
    }
}

/// Writes what the lines of a session answer, where memory was found for all of its run, and says with which status the run ends.
fn write_session<K: Sink>(alloc: Global, ran: Ran, session: &Session, sink: &mut K) -> u8
    ensures sink_faults { K.faults sink.old ≤ K.faults sink.new }
    ensures which { IsWrittenStatus result ⊎ (result ≡ WRITE_FAILED) ⊎ (result ≡ NO_MEMORY) }
    ensures starved { ran ≡ Ran.Starved → result ≡ NO_MEMORY }
    ensures unwritten { result ≡ NO_MEMORY → sink.new ≡ sink.old }
    ensures failed { result ≡ WRITE_FAILED → Rose (K.faults sink.old) (K.faults sink.new) }
    ensures part { result ≡ WRITE_FAILED
        → IsPartlyWritten (K.written sink.old) (K.written sink.new)
        (render session.now.lines session.now.entries session.now.peeks) }
    ensures status { IsWrittenStatus result → result ≡ status_by ran session.now }
    ensures whole { IsWrittenStatus result →
        IsWritten (K.written sink.old) (K.written sink.new) (K.flushed sink.new)
        (render session.now.lines session.now.entries session.now.peeks) }
{
    if ran == Ran::Starved {
        return NO_MEMORY;
    }
    let Ok(text) = render(
        alloc,
        session.lines.items(),
        session.entries.items(),
        session.peeks.items(),
    ) else {
        return NO_MEMORY;
    };
    match write_all(sink, text.bytes()) {
        Ok(()) => status_by(ran, session),
        Err(_) => WRITE_FAILED,
    }
}

/// The whole of the program: reads the words and the input, runs its lines, and writes what they answer.
///
/// The words are the command line without the program's name; they have to be `run`, and may give a limit on the effort of each
/// resolve, by `--budget B` or `--budget=B`, and one on how many events are handed to listeners, by `--handings E` or
/// `--handings=E`, in any order and each at most once. The status and the session that are answered are explained at `Finished`.
/// Before the first line runs, the folder of each location that an `install` or an `update` line names is read from the shelf,
/// once. Caller 0 runs the lines in a hall, and comes to the gate before and after each of its calls, and as each section begins. It
/// may wait, at the gate and for its turns.
pub fn framework_main<R: Threads + Wait + Sync, S: Source, K: Sink, F: Shelf, G: Gate + Sync>(
    rt: &R,
    alloc: Global,
    words: &[Text],
    source: &mut S,
    sink: &mut K,
    shelf: &mut F,
    gate: &G,
) -> Finished
    ensures range { result.status ≤ CUT }
    ensures faulty_words { (result.status ≡ FAULTY_WORDS)
        ↔ ¬ ((asked : Request) × Asks words.now asked) }
    ensures good_words { (result.status ≡ FAULTY_WORDS)
        ⊎ ((asked : Request) × Asks words.now asked) }
    ensures untouched { result.status ≡ FAULTY_WORDS
        → (source.new ≡ source.old) × (sink.new ≡ sink.old) }
    ensures unread { IsBareStatus result.status → shelf.new ≡ shelf.old }

    // What was read, run and recorded, whatever came of the writing.
    ensures session { (asked : Request) → Asks words.now asked →
        IfSome result.session (IsSession asked result.status (S.left source.old)
        (record { told = F.told shelf.old; before = F.faults shelf.old; after = F.faults shelf.new })) }
    ensures told { F.told shelf.new ≡ F.told shelf.old }
    ensures shelf_faults { F.faults shelf.old ≤ F.faults shelf.new }
    ensures all_read { OnSome result.session
        (OnSome (S.left source.old) (S.left source.new ≡ Some [])) }
    ensures no_session { result.session ≡ None
        → IsBareStatus result.status ⊎ (result.status ≡ NO_MEMORY) }
    ensures bare { IsBareStatus result.status → result.session ≡ None }

    // Why nothing, or not all, was written.
    ensures source_faults { S.faults source.old ≤ S.faults source.new }
    ensures read_failed { result.status ≡ READ_FAILED
        → Rose (S.faults source.old) (S.faults source.new) }
    ensures too_much { result.status ≡ INPUT_TOO_LONG
        → IfSome (S.left source.old) (λ bytes. MAX_INPUT < length bytes) }
    ensures above_limit { IsSomeAnd (S.left source.old) (λ bytes. MAX_INPUT < length bytes) →
        IsBareStatus result.status ⊎ (result.status ≡ NO_MEMORY) }
    ensures sink_faults { K.faults sink.old ≤ K.faults sink.new }
    ensures write_failed { result.status ≡ WRITE_FAILED
        → Rose (K.faults sink.old) (K.faults sink.new) }
    ensures part_written { (asked : Request) → Asks words.now asked → result.status ≡ WRITE_FAILED →
        IsSomeAnd result.session (λ session.
        IsPartlyWritten (K.written sink.old) (K.written sink.new) (text_of asked session)) }
    ensures unwritten { IsBareStatus result.status ⊎ (result.status ≡ NO_MEMORY)
        → sink.new ≡ sink.old }

    // The text, and the status that says what is in it.
    ensures written { (asked : Request) → Asks words.now asked → IsWrittenStatus result.status →
        IsSomeAnd result.session (λ session.
        IsWritten (K.written sink.old) (K.written sink.new) (K.flushed sink.new)
        (text_of asked session)) }
    ensures status_by_session { IsWrittenStatus result.status →
        IsSomeAnd result.session (λ session. result.status ≡ status_of session) }
    ensures cut { (asked : Request)
        → Asks words.now asked
        → result.status ≡ CUT
        → IsSomeAnd result.session (IsAtLimit (bounds_in asked)) }
    ensures complete { (asked : Request) → Asks words.now asked →
        ¬ Rose (S.faults source.old) (S.faults source.new) →
        ¬ Rose (K.faults sink.old) (K.faults sink.new) →
        IsSomeAnd (S.left source.old) (λ bytes. length bytes ≤ MAX_INPUT) →
        IfSome result.session (λ session. IsUncut session) →
        (result.status ≡ DONE) ⊎ (result.status ≡ TROUBLED) ⊎ (result.status ≡ NO_MEMORY) }
{
    let Some(limits) = run_limits(words) else {
        return Finished::bare(FAULTY_WORDS);
    };
    let input = match read_all(alloc, source, MAX_INPUT) {
        Ok(Input::All(input)) => input,
        Ok(Input::TooMuch) => return Finished::bare(INPUT_TOO_LONG),
        Ok(Input::Failed) => return Finished::bare(READ_FAILED),
        Err(_) => return Finished::bare(NO_MEMORY),
    };
    match run_input(rt, alloc, limits, input.bytes(), shelf, gate) {
        Ok((ran, session)) => {
            let status = write_session(alloc, ran, &session, sink);
            Finished {
                status,
                session: Some(session),
            }
        }
        Err(_) => Finished::bare(NO_MEMORY),
    }
}
