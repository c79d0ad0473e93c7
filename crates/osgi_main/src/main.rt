//! The program `osgi_program`: hands the command line, the real streams and the file system to the top call.
#![tactic(auto)]

use osgi_base::Text;
use osgi_outside::{DirShelf, OpenGate, StdSink, StdSource};
use osgi_program::{FAULTY_WORDS, NO_MEMORY, framework_main};
use std::io::{ErrorKind, writer};
use std::process::ExitCode;
use std::rt::Env;
use std::{env, io};

/// What is said of words that are not of the written form.
const USAGE: &str = "usage: osgi_program run|check|make";

/// The words of the command line, without the program's name.
fn words(rt: &(impl Env + AllocGlobal)) -> io::Result<Vec<Text>> {
    let mut words = Vec::new(rt.alloc());
    for word in env::args(rt)?.skip(1) {
        words.push(Text::of(rt.alloc(), word.as_bytes())?)?;
    }
    Ok(words)
}

fn main(rt: HostRuntime) -> ExitCode {
    let words = match words(&rt) {
        Ok(words) => words,
        Err(error) if error.kind() == ErrorKind::OutOfMemory => return ExitCode::from(NO_MEMORY),
        // A word that is no text is a faulty command line, as no word at all is.
        Err(_) => Vec::new(rt.alloc()),
    };
    let mut source = StdSource::new(rt.reader());
    let mut sink = StdSink::new(writer(&rt));
    let mut shelf = DirShelf::new(&rt);
    let finished = framework_main(
        &rt,
        rt.alloc(),
        words.as_slice(),
        &mut source,
        &mut sink,
        &mut shelf,
        &OpenGate,
    );
    if finished.status == FAULTY_WORDS {
        // Where standard error takes nothing, the status alone has to say it.
        let _ = eprintln!(rt; "{USAGE}");
    }
    ExitCode::from(finished.status)
}
