//! The words of a line: spaces separate them, except between quotes.

ghost use Rattle.std.specs.Prelude.{◌≡◌, ℕ, List, ◌∷◌, None, Some, IfOk, MatchOption};
ghost use Rattle.osgi_syntax.specs.Splitting.{after_spaces, only_word_of, texts_of, words_of, BeginsWithWord, HasNoWord};
ghost use Rattle.osgi_syntax.specs.LineWords.{AreLineWords};
ghost use Rattle.osgi_syntax.specs.Words.{AreSpaces, IsSeparated};

use osgi_base::part_len;
use std::alloc::{AllocError, Global};

/// Drops the spaces at the start.
pub fn skip_spaces(text: &[u8]) -> &[u8]
    ensures rest { result.now ≡ after_spaces text.now }
{
    let mut rest = text;
    while let [b' ', remainder @ ..] = rest {
        rest = remainder;
    }
    rest
}

/// Splits off the first word: the word, and what is left after it. None where no word is left.
pub fn split_word(text: &[u8]) -> Option<(&[u8], &[u8])>
    ensures words { MatchOption result (HasNoWord text.now) (λ split. BeginsWithWord text.now split.0.now split.1.now) }
{
    let text = skip_spaces(text);
    if text.is_empty() {
        return None;
    }
    Some(text.split_at(part_len(b' ', text)))
}

/// The one word of a text; none where it has none or more.
pub fn only_word(text: &[u8]) -> Option<&[u8]>
    ensures word { MatchOption result (only_word_of (words_of text.now) ≡ None) (λ word. only_word_of (words_of text.now) ≡ Some word.now) }
{
    let (word, rest) = split_word(text)?;
    match split_word(rest) {
        Some(_) => None,
        None => Some(word),
    }
}

/// All words of a text, in order. A word with a quote that is not closed goes to the end of the text.
pub fn split_words<'a>(alloc: Global, text: &'a [u8]) -> Result<Vec<&'a [u8]>, AllocError>
    ensures words { IfOk result (λ words. texts_of words.items ≡ words_of text.now) }
    ensures separated { IfOk result (λ words. IsSeparated AreSpaces (texts_of words.items) (32 ∷ text.now)) }
    ensures only { (words : List (List ℕ)) → AreLineWords words → IsSeparated AreSpaces words (32 ∷ text.now) → IfOk result (λ split. texts_of split.items ≡ words) }
{
    all_words(alloc, text)
}

fn all_words<'a>(alloc: Global, text: &'a [u8]) -> Result<Vec<&'a [u8]>, AllocError>
    ensures words { IfOk result (λ words. texts_of words.items ≡ words_of text.now) }
{
    let mut words = Vec::new(alloc);
    let mut rest = text;
    while let Some((word, remainder)) = split_word(rest) {
        words.push(word)?;
        rest = remainder;
    }
    Ok(words)
}
