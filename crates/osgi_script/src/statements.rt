//! The statements, read from lines: the first word says how the rest is read.

ghost use Rattle.std.specs.Prelude.{◌≡◌, IfOk, MatchOption, None};
ghost use Rattle.osgi_filter.specs.computed.Reader.{read_filter};
ghost use Rattle.osgi_script.specs.computed.StatementReader as spec;
ghost use Rattle.osgi_script.specs.computed.StatementReader.{filter_end_of, find_of, kind_of, listen_of, modify_of, only_of, register_of, registration_of, statement_by, statement_of, verb_of, IsSplitName};
ghost use Rattle.osgi_script.specs.Statements as grammar;
ghost use Rattle.osgi_base.specs.QuoteReader.{quoted_of};
ghost use Rattle.osgi_syntax.specs.Splitting.{first_word, words_of};
ghost use Rattle.osgi_syntax.specs.WordReader.{bundle_name_of, class_of, name_of};

use osgi_base::Text;
use osgi_base::quoted::quoted;
use osgi_filter::parse;
use osgi_model::Filter;
use osgi_ops::Kind;
use osgi_session::Statement;
use osgi_syntax::properties::properties;
use osgi_syntax::{
    bundle_name, class, classes, name, only_word, skip_spaces, split_word, split_words,
};
use std::alloc::{AllocError, Global};

/// The statements, by their first words.
#[derive(Clone, Copy)]
enum Verb {
    Register,
    Modify,
    Unregister,
    Find,
    Get,
    Unget,
    Start,
    Stop,
    Load,
    Listen,
    Unlisten,
    Job,
    Print,
    Fail,
}

const VERBS: [Verb; 14] = [
    Verb::Register,
    Verb::Modify,
    Verb::Unregister,
    Verb::Find,
    Verb::Get,
    Verb::Unget,
    Verb::Start,
    Verb::Stop,
    Verb::Load,
    Verb::Listen,
    Verb::Unlisten,
    Verb::Job,
    Verb::Print,
    Verb::Fail,
];

impl Verb {
    fn word(self) -> &'static [u8]
        ensures word { result.now ≡ spec.verb_word self }
    {
        match self {
            Verb::Register => b"register",
            Verb::Modify => b"modify",
            Verb::Unregister => b"unregister",
            Verb::Find => b"find",
            Verb::Get => b"get",
            Verb::Unget => b"unget",
            Verb::Start => b"start",
            Verb::Stop => b"stop",
            Verb::Load => b"load",
            Verb::Listen => b"listen",
            Verb::Unlisten => b"unlisten",
            Verb::Job => b"job",
            Verb::Print => b"print",
            Verb::Fail => b"fail",
        }
    }
}

fn verb_named(word: &[u8]) -> Option<Verb>
    ensures verb { result ≡ verb_of word.now }
{
    VERBS.iter().copied().find(|verb| verb.word() == word)
}

const KINDS: [Kind; 4] = [Kind::Service, Kind::All, Kind::Bundle, Kind::Framework];

fn kind_word(kind: Kind) -> &'static [u8]
    ensures word { result.now ≡ grammar.kind_word kind }
{
    match kind {
        Kind::Service => b"service",
        Kind::All => b"all",
        Kind::Bundle => b"bundle",
        Kind::Framework => b"framework",
    }
}

fn kind_named(word: &[u8]) -> Option<Kind>
    ensures kind { result ≡ kind_of word.now }
{
    KINDS.iter().copied().find(|kind| kind_word(*kind) == word)
}

/// The one argument, which is the name of a variable, a listener or a job.
fn only_name(alloc: Global, text: &[u8]) -> Result<Option<Text>, AllocError>
    ensures name { IfOk result (λ name. name ≡ only_of name_of (words_of text.now)) }
{
    match only_word(text) {
        Some(word) => name(alloc, word),
        None => Ok(None),
    }
}

/// The one argument, which is the symbolic name of a bundle.
fn only_bundle_name(alloc: Global, text: &[u8]) -> Result<Option<Text>, AllocError>
    ensures name { IfOk result (λ name. name ≡ only_of bundle_name_of (words_of text.now)) }
{
    match only_word(text) {
        Some(word) => bundle_name(alloc, word),
        None => Ok(None),
    }
}

/// The one argument, which is a class name.
fn only_class(alloc: Global, text: &[u8]) -> Result<Option<Text>, AllocError>
    ensures class { IfOk result (λ class. class ≡ only_of class_of (words_of text.now)) }
{
    match only_word(text) {
        Some(word) => class(alloc, word),
        None => Ok(None),
    }
}

/// The one argument, which is a text between quotes.
fn only_quoted(alloc: Global, text: &[u8]) -> Result<Option<Text>, AllocError>
    ensures text { IfOk result (λ read. read ≡ only_of quoted_of (words_of text.now)) }
{
    match only_word(text) {
        Some(word) => quoted(alloc, word),
        None => Ok(None),
    }
}

/// Splits off the first word, which is the name of a variable or a listener: the name, and what is left after it. None where
/// it is no name.
fn split_name<'a>(alloc: Global, text: &'a [u8]) -> Result<Option<(Text, &'a [u8])>, AllocError>
    ensures name { IfOk result (λ read.
        MatchOption read (name_of (first_word text.now) ≡ None) (λ split.
        IsSplitName text.now split.0 split.1.now)) }
{
    let Some((word, rest)) = split_word(text) else {
        return Ok(None);
    };
    Ok(name(alloc, word)?.map(|name| (name, rest)))
}

/// `CLASS[,CLASS].. "TEXT" [PROP]..`, which the variable of `register` stands before.
fn registration(alloc: Global, var: Text, text: &[u8]) -> Result<Option<Statement>, AllocError>
    ensures statement { IfOk result (λ statement.
        statement ≡ registration_of var (words_of text.now)) }
{
    let Some((names, rest)) = split_word(text) else {
        return Ok(None);
    };
    let Some((object, rest)) = split_word(rest) else {
        return Ok(None);
    };
    let Some(classes) = classes(alloc, names)? else {
        return Ok(None);
    };
    let Some(object) = quoted(alloc, object)? else {
        return Ok(None);
    };
    let Some(properties) = properties(alloc, split_words(alloc, rest)?.as_slice())? else {
        return Ok(None);
    };
    Ok(Some(Statement::Register {
        var,
        classes,
        object,
        properties,
    }))
}

/// `register VAR CLASS[,CLASS].. "TEXT" [PROP]..`, from what follows its first word.
fn register(alloc: Global, text: &[u8]) -> Result<Option<Statement>, AllocError>
    ensures statement { IfOk result (λ statement. statement ≡ register_of text.now) }
{
    match split_name(alloc, text)? {
        Some((var, rest)) => registration(alloc, var, rest),
        None => Ok(None),
    }
}

/// `modify VAR [PROP]..`, from what follows its first word.
fn modify(alloc: Global, text: &[u8]) -> Result<Option<Statement>, AllocError>
    ensures statement { IfOk result (λ statement. statement ≡ modify_of text.now) }
{
    let Some((var, rest)) = split_name(alloc, text)? else {
        return Ok(None);
    };
    let Some(properties) = properties(alloc, split_words(alloc, rest)?.as_slice())? else {
        return Ok(None);
    };
    Ok(Some(Statement::Modify { var, properties }))
}

/// The filter that a text reads as; none where it is none.
#[tactic(auto, using(osgi_filter::specs::laws::Reading::filter_is))]
fn filter(alloc: Global, text: &[u8]) -> Result<Option<Filter>, AllocError>
    ensures filter { IfOk result (λ filter. filter ≡ read_filter text.now) }
{
    Ok(parse(alloc, text)?.ok())
}

/// `[FILTER]`, from what is left of a line: no filter where that is spaces. It is not split into words: quotes mean nothing
/// in a filter. None where it is neither.
fn filter_end(alloc: Global, text: &[u8]) -> Result<Option<Option<Filter>>, AllocError>
    ensures filter { IfOk result (λ filter. filter ≡ filter_end_of text.now) }
{
    if skip_spaces(text).is_empty() {
        return Ok(Some(None));
    }
    Ok(filter(alloc, text)?.map(Some))
}

/// `find VAR CLASS [FILTER]`, from what follows its first word.
fn find(alloc: Global, text: &[u8]) -> Result<Option<Statement>, AllocError>
    ensures statement { IfOk result (λ statement. statement ≡ find_of text.now) }
{
    let Some((var, rest)) = split_name(alloc, text)? else {
        return Ok(None);
    };
    let Some((word, rest)) = split_word(rest) else {
        return Ok(None);
    };
    let Some(class) = class(alloc, word)? else {
        return Ok(None);
    };
    let Some(filter) = filter_end(alloc, rest)? else {
        return Ok(None);
    };
    Ok(Some(Statement::Find { var, class, filter }))
}

/// `listen NAME service|all|bundle|framework [FILTER]`, from what follows its first word.
fn listen(alloc: Global, text: &[u8]) -> Result<Option<Statement>, AllocError>
    ensures statement { IfOk result (λ statement. statement ≡ listen_of text.now) }
{
    let Some((name, rest)) = split_name(alloc, text)? else {
        return Ok(None);
    };
    let Some((word, rest)) = split_word(rest) else {
        return Ok(None);
    };
    let Some(kind) = kind_named(word) else {
        return Ok(None);
    };
    let Some(filter) = filter_end(alloc, rest)? else {
        return Ok(None);
    };
    Ok(Some(Statement::Listen { name, kind, filter }))
}

fn statement_by(alloc: Global, verb: Verb, text: &[u8]) -> Result<Option<Statement>, AllocError>
    ensures statement { IfOk result (λ statement. statement ≡ statement_by verb text.now) }
{
    match verb {
        Verb::Register => register(alloc, text),
        Verb::Modify => modify(alloc, text),
        Verb::Unregister => Ok(only_name(alloc, text)?.map(|var| Statement::Unregister { var })),
        Verb::Find => find(alloc, text),
        Verb::Get => Ok(only_name(alloc, text)?.map(|var| Statement::Get { var })),
        Verb::Unget => Ok(only_name(alloc, text)?.map(|var| Statement::Unget { var })),
        Verb::Start => Ok(only_bundle_name(alloc, text)?.map(|name| Statement::Start { name })),
        Verb::Stop => Ok(only_bundle_name(alloc, text)?.map(|name| Statement::Stop { name })),
        Verb::Load => Ok(only_class(alloc, text)?.map(|class| Statement::Load { class })),
        Verb::Listen => listen(alloc, text),
        Verb::Unlisten => Ok(only_name(alloc, text)?.map(|name| Statement::Unlisten { name })),
        Verb::Job => Ok(only_name(alloc, text)?.map(|name| Statement::Job { name })),
        Verb::Print => Ok(only_quoted(alloc, text)?.map(|text| Statement::Print { text })),
        Verb::Fail => Ok(only_quoted(alloc, text)?.map(|text| Statement::Fail { text })),
    }
}

/// The statement that a line is; none where it is none.
pub fn statement(alloc: Global, line: &[u8]) -> Result<Option<Statement>, AllocError>
    ensures statement { IfOk result (λ statement. statement ≡ statement_of line.now) }
{
    let Some((word, rest)) = split_word(line) else {
        return Ok(None);
    };
    match verb_named(word) {
        Some(verb) => statement_by(alloc, verb, rest),
        None => Ok(None),
    }
}
