//! The lines of a text, and those of them that say nothing.

ghost use Rattle.std.specs.Prelude.{◌≡◌, ◌↔◌, [], IsTrue, MatchOption};
ghost use Rattle.std.specs.List.{position};
ghost use Rattle.std.specs.Str.Lines.{lines, strip_carriage_return};
ghost use Rattle.osgi_syntax.specs.LineReader.{is_line_feed, is_silent};
ghost use Rattle.osgi_syntax.specs.Lines.{BeginsWithLine, SaysNothing};
ghost use Rattle.osgi_syntax.specs.Splitting.{after_spaces};

use crate::words::skip_spaces;

/// Whether a line says nothing: it is spaces alone, or a comment, whose first byte besides spaces is `#`.
pub fn says_nothing(line: &[u8]) -> bool
    ensures silent { result ≡ is_silent (after_spaces line.now) }
    ensures reads { IsTrue result ↔ SaysNothing line.now }
{
    is_silent(line)
}

fn is_silent(line: &[u8]) -> bool
    ensures silent { result ≡ is_silent (after_spaces line.now) }
{
    matches!(skip_spaces(line), [] | [b'#', ..])
}

/// A line without the one CR at its end, if it has one.
fn strip_return(line: &[u8]) -> &[u8]
    ensures stripped { result.now ≡ strip_carriage_return line.now }
{
    match line.split_last() {
        Some((b'\r', prefix)) => prefix,
        _ => line,
    }
}

fn first_line_feed(bytes: &[u8]) -> Option<usize>
    ensures place { result ≡ position is_line_feed bytes.now }
{
    bytes.iter().position(|b| *b == b'\n')
}

/// Splits off the first line: the line without its end, and what is left after it. None where nothing is left.
///
/// A line ends by LF or CRLF; the last one need not.
pub fn split_line(bytes: &[u8]) -> Option<(&[u8], &[u8])>
    ensures lines { MatchOption result (lines bytes.now ≡ []) (λ split. BeginsWithLine bytes.now split.0.now split.1.now) }
{
    if bytes.is_empty() {
        return None;
    }
    match first_line_feed(bytes) {
        Some(end) => {
            let (text, _) = bytes.split_at(end);
            let (_, left) = bytes.split_at(end + 1);
            Some((strip_return(text), left))
        }
        None => Some(bytes.split_at(bytes.len())),
    }
}
