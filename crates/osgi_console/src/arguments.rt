//! The arguments of commands: the words, and what else may end a line.

ghost use Rattle.std.specs.Prelude.{◌≡◌, ◌==◌, length, None, Some, IfOk, MatchOption};
ghost use Rattle.std.specs.List.{position};
ghost use Rattle.osgi_filter.specs.computed.Reader.{read_filter};
ghost use Rattle.osgi_console.specs.computed.ArgumentReader.{aim_of, bundle_ids_of, is_space, level_by, level_of, location_of, only_bundle_of, only_id_of, only_level_of, search_of};
ghost use Rattle.osgi_syntax.specs.Splitting.{texts_of, words_of};

use osgi_base::{BundleId, List, ServiceId, Text};
use osgi_filter::parse;
use osgi_model::Filter;
use osgi_syntax::{bundle_id, class, id, only_word, skip_spaces, split_word};
use std::alloc::{AllocError, Global};

/// What a `find` or `findall` looks for.
#[derive(Drop)]
pub struct Search {
    pub class: Text,
    pub filter: Option<Filter>,
}

/// What a `start` or `stop` is for.
#[derive(Clone, Copy)]
pub struct Aim {
    pub bundle: BundleId,
    /// Whether it is for this time alone.
    pub transient: bool,
}

/// The one argument, which is the id of a service.
pub fn only_id(text: &[u8]) -> Option<ServiceId>
    ensures id { result ≡ only_id_of (words_of text.now) }
{
    let word = only_word(text)?;
    id(word)
}

/// The one argument, which is the id of a bundle.
pub fn only_bundle(text: &[u8]) -> Option<BundleId>
    ensures bundle { result ≡ only_bundle_of (words_of text.now) }
{
    let word = only_word(text)?;
    bundle_id(word)
}

/// Whether no word is left.
pub fn has_no_word(text: &[u8]) -> bool
    ensures none { result ≡ (length (words_of text.now) == 0) }
{
    split_word(text).is_none()
}

fn first_space(text: &[u8]) -> Option<usize>
    ensures place { result ≡ position is_space text.now }
{
    text.iter().position(|b| *b == b' ')
}

/// The one argument, which is a location; none where it is none. Quotes mean nothing in it.
pub fn location(text: &[u8]) -> Option<&[u8]>
    ensures location { MatchOption result (location_of text.now ≡ None) (λ word.
        location_of text.now ≡ Some word.now) }
{
    let text = skip_spaces(text);
    let end = first_space(text).unwrap_or(text.len());
    let (word, rest) = text.split_at(end);
    if end != 0 && skip_spaces(rest).is_empty() {
        Some(word)
    } else {
        None
    }
}

/// The start level with this number, where there is a number and it is below 2^8.
fn level_by(number: Option<ServiceId>) -> Option<u8>
    ensures level { result ≡ level_by number }
{
    let ServiceId(number) = number?;
    if number > u64::from(u8::MAX) {
        None
    } else {
        Some(number as u8)
    }
}

/// A word as a start level: one to ten decimal digits of a number below 2^8. None where it is none.
pub fn level(word: &[u8]) -> Option<u8>
    ensures level { result ≡ level_of word.now }
{
    level_by(id(word))
}

/// The one argument, which is a start level.
pub fn only_level(text: &[u8]) -> Option<u8>
    ensures level { result ≡ only_level_of (words_of text.now) }
{
    let word = only_word(text)?;
    level(word)
}

/// `[-t] ID`
pub fn aim_in(text: &[u8]) -> Option<Aim>
    ensures aim { result ≡ aim_of (words_of text.now) }
{
    let (word, rest) = split_word(text)?;
    let transient = word == b"-t".as_slice();
    let bundle = only_bundle(if transient { rest } else { text })?;
    Some(Aim { bundle, transient })
}

/// The words as ids of bundles, in order; none where one of them is none.
pub fn bundle_ids(alloc: Global, words: &[&[u8]]) -> Result<Option<List<BundleId>>, AllocError>
    ensures ids { IfOk result (λ ids. ids ≡ bundle_ids_of (texts_of words.now)) }
{
    let mut ids = List::with_capacity(alloc, words.len())?;
    for word in words {
        let Some(id) = bundle_id(word) else {
            return Ok(None);
        };
        ids.push(id)?;
    }
    Ok(Some(ids))
}

/// The filter that a text reads as; none where it is none.
#[tactic(auto, using(crate::proofs::Filters::filter_is))]
fn filter(alloc: Global, text: &[u8]) -> Result<Option<Filter>, AllocError>
    ensures filter { IfOk result (λ filter. filter ≡ read_filter text.now) }
{
    Ok(parse(alloc, text)?.ok())
}

/// `CLASS [FILTER]`. The filter is what is left after the class and is not split into words: quotes mean nothing in it.
pub fn class_and_filter(alloc: Global, text: &[u8]) -> Result<Option<Search>, AllocError>
    ensures wanted { IfOk result (λ wanted. wanted ≡ search_of text.now) }
{
    let Some((name, remainder)) = split_word(text) else {
        return Ok(None);
    };
    let Some(class) = class(alloc, name)? else {
        return Ok(None);
    };
    if skip_spaces(remainder).is_empty() {
        return Ok(Some(Search {
            class,
            filter: None,
        }));
    }
    Ok(filter(alloc, remainder)?.map(|filter| Search {
        class,
        filter: Some(filter),
    }))
}
