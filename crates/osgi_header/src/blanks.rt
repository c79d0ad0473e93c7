//! Spaces and tabs round a text.

ghost use Rattle.std.specs.Prelude.{◌≡◌};
ghost use Rattle.std.specs.List.{list_all};
ghost use Rattle.osgi_header.specs.Spaces.{is_space_or_tab};
ghost use Rattle.osgi_header.specs.computed.ClauseReader.{after_blanks, before_blanks, trimmed};

/// Drops the spaces and tabs at the start.
fn trim_start(text: &[u8]) -> &[u8]
    ensures rest { result.now ≡ after_blanks text.now }
{
    let mut rest = text;
    while let [b' ' | b'\t', remainder @ ..] = rest {
        rest = remainder;
    }
    rest
}

/// Drops the spaces and tabs at the end.
fn trim_end(text: &[u8]) -> &[u8]
    ensures rest { result.now ≡ before_blanks text.now }
{
    let mut rest = text;
    while let [prefix @ .., b' ' | b'\t'] = rest {
        rest = prefix;
    }
    rest
}

/// A text without the spaces and tabs round it.
pub fn trim(text: &[u8]) -> &[u8]
    ensures trimmed { result.now ≡ trimmed text.now }
{
    trim_end(trim_start(text))
}

/// Whether a text is spaces and tabs alone.
pub fn is_blank(text: &[u8]) -> bool
    ensures blank { result ≡ list_all is_space_or_tab text.now }
{
    text.iter().all(|b| matches!(*b, b' ' | b'\t'))
}
