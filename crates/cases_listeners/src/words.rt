//! What words of cases write.

use cases_text::{number_of, split_word};
use osgi_base::Tag;
use osgi_ops::Kind;

/// The number that a word writes; 0 where it writes none.
pub fn number(word: &str) -> u64 {
    number_of(word).unwrap_or(0)
}

pub fn small(word: &str) -> u32 {
    u32::try_from(number(word)).unwrap_or(u32::MAX)
}

pub fn code(word: &str) -> u8 {
    u8::try_from(number(word)).unwrap_or(u8::MAX)
}

/// The kinds by their words.
const KINDS: [(&str, Kind); 4] = [
    ("service", Kind::Service),
    ("all", Kind::All),
    ("bundle", Kind::Bundle),
    ("framework", Kind::Framework),
];

/// The kind of a word; that of the framework's events for any other.
pub fn kind_of(word: &str) -> Kind {
    for (name, kind) in KINDS {
        if name == word {
            return kind;
        }
    }
    Kind::Framework
}

pub fn tag_of<'a>(text: &'a str) -> (Tag, &'a str) {
    let (caller, rest) = split_word(text);
    let (command, rest) = split_word(rest);
    let tag = Tag {
        caller: small(caller),
        command: small(command),
    };
    (tag, rest)
}
