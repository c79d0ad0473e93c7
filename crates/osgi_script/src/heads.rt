//! The heads of sections.

ghost use Rattle.std.specs.Prelude.{◌≡◌, IfOk};
ghost use Rattle.osgi_script.specs.computed.HeadReader.{alone, head_by, head_named, head_of, head_word, named_head_of, section_name_of};
ghost use Rattle.osgi_syntax.specs.Splitting.{words_of};

use osgi_base::Text;
use osgi_ops::Section;
use osgi_syntax::{name, only_word, split_word};
use std::alloc::{AllocError, Global};

/// The first words of heads.
#[derive(Clone, Copy)]
enum HeadWord {
    Start,
    Stop,
    On,
    Job,
}

const HEADS: [HeadWord; 4] = [HeadWord::Start, HeadWord::Stop, HeadWord::On, HeadWord::Job];

impl HeadWord {
    fn word(self) -> &'static [u8]
        ensures word { result.now ≡ head_word self }
    {
        match self {
            HeadWord::Start => b"start:",
            HeadWord::Stop => b"stop:",
            HeadWord::On => b"on",
            HeadWord::Job => b"job",
        }
    }
}

fn head_named(word: &[u8]) -> Option<HeadWord>
    ensures head { result ≡ head_named word.now }
{
    HEADS.iter().copied().find(|head| head.word() == word)
}

/// The name of a word that is a name with a `:` after it; none where it is none.
fn section_name(alloc: Global, word: &[u8]) -> Result<Option<Text>, AllocError>
    ensures name { IfOk result (λ name. name ≡ section_name_of word.now) }
{
    match word.strip_suffix(b":") {
        Some(prefix) => name(alloc, prefix),
        None => Ok(None),
    }
}

/// The name of a section, from what follows the first word of its head.
fn named_head(alloc: Global, text: &[u8]) -> Result<Option<Text>, AllocError>
    ensures name { IfOk result (λ name. name ≡ named_head_of (words_of text.now)) }
{
    match only_word(text) {
        Some(word) => section_name(alloc, word),
        None => Ok(None),
    }
}

/// The section whose head is its first word alone.
fn alone(section: Section, text: &[u8]) -> Option<Section>
    ensures section { result ≡ alone section (words_of text.now) }
{
    match split_word(text) {
        Some(_) => None,
        None => Some(section),
    }
}

fn head_by(alloc: Global, head: HeadWord, text: &[u8]) -> Result<Option<Section>, AllocError>
    ensures section { IfOk result (λ section. section ≡ head_by head (words_of text.now)) }
{
    match head {
        HeadWord::Start => Ok(alone(Section::Start, text)),
        HeadWord::Stop => Ok(alone(Section::Stop, text)),
        HeadWord::On => Ok(named_head(alloc, text)?.map(Section::On)),
        HeadWord::Job => Ok(named_head(alloc, text)?.map(Section::Job)),
    }
}

/// The section whose head a line is; none where it is no head.
pub fn head(alloc: Global, line: &[u8]) -> Result<Option<Section>, AllocError>
    ensures section { IfOk result (λ section. section ≡ head_of line.now) }
{
    let Some((word, rest)) = split_word(line) else {
        return Ok(None);
    };
    match head_named(word) {
        Some(head) => head_by(alloc, head, rest),
        None => Ok(None),
    }
}
