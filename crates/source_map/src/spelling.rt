//! Compares ranges of a text with lists of a word and numbers, without reading them as JSON.
ghost use Rattle.std.specs.Prelude.{◌≡◌, ◌≤◌, ◌++◌, IfSome, IsTrue, List, decimal, length, take, true, ℕ};
ghost use Rattle.json.specs.Print.{quoted};
ghost use Rattle.json.specs.Spaced.{IsGap};
ghost use Rattle.source_map.specs.Maps.{ReadsAt};
ghost use Rattle.source_map.specs.Positions.{between};
ghost use Rattle.source_map.specs.ListTexts.{Fit, FollowsGap, HasTokens, list_value, number_tokens};

use crate::span::Span;
use itoa::Buffer;

/// Returns the text after a prefix.
pub(crate) fn after<'a>(text: &'a [u8], prefix: &[u8]) -> Option<&'a [u8]>
    ensures { IfSome result (λ rest. text.now ≡ prefix.now ++ rest.now) }
{
    let Some(rest) = text.strip_prefix(prefix) else {
        return None;
    };
    Some(rest)
}

// Returns the number of spaces and line feeds at the start of a text.
fn gap_length(text: &[u8]) -> usize
    ensures within { result ≤ length text.now }
    ensures gap { IsGap (take result text.now) }
{
    for (i, byte) in text.iter().enumerate() {
        if *byte != b' ' && *byte != b'\n' {
            return i;
        }
    }
    text.len()
}

/// Returns a text after its first spaces and line feeds.
pub(crate) fn after_gap(text: &[u8]) -> &[u8]
    ensures { FollowsGap text.now result.now }
{
    &text[gap_length(text)..]
}

/// Returns the text after a number.
pub(crate) fn after_number(text: &[u8], number: u64) -> Option<&[u8]>
    ensures { IfSome result (λ rest. text.now ≡ decimal number ++ rest.now) }
{
    let mut buffer = Buffer::new();
    after(text, buffer.format(number).as_bytes())
}

// Returns whether a text is the rest of a list after an item: these numbers, and the closing
// bracket.
fn is_rest(text: &[u8], numbers: &[u64]) -> bool
    ensures { IsTrue result → HasTokens true text.now (number_tokens numbers.now) }
{
    let [number, more @ ..] = numbers else {
        return matches!(after(after_gap(text), b"]"), Some([]));
    };
    let Some(rest) = after(text, b",") else {
        return false;
    };
    let Some(rest) = after_number(after_gap(rest), *number) else {
        return false;
    };
    is_rest(rest, more)
}

/// Returns a range of a text.
pub(crate) fn range_of(text: &[u8], span: Span) -> Option<&[u8]>
    ensures ordered { IfSome result (λ range. span.start ≤ span.end) }
    ensures within { IfSome result (λ range. span.end ≤ length text.now) }
    ensures range { IfSome result (λ range. range.now ≡ between text.now span.start span.end) }
{
    text.get(span.start..span.end)
}

/// Returns whether a range is the list of a word, given in quotes, and numbers.
pub(crate) fn is_list(text: &[u8], span: Span, in_quotes: &[u8], numbers: &[u64]) -> bool
    ensures reads { IsTrue result → (word : List ℕ) → in_quotes.now ≡ quoted word
        → ReadsAt text.now span (list_value word numbers.now) }
    ensures fit { IsTrue result → Fit numbers.now }
{
    let Some(range) = range_of(text, span) else {
        return false;
    };
    let Some(rest) = after(range, b"[") else {
        return false;
    };
    let Some(rest) = after(after_gap(rest), in_quotes) else {
        return false;
    };
    is_rest(rest, numbers)
}
