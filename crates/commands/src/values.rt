//! Parses the values of places.
ghost use Rattle.std.specs.Prelude.{◌≡◌, ◌<◌, true, option_map, IfSome};
ghost use Rattle.std.specs.Char.{is_ascii_digit};
ghost use Rattle.std.specs.List.{list_all};
ghost use Rattle.scenario.specs.Names.{is_numeral};
ghost use Rattle.commands.specs.Values.{wide_number_of, positive, negative, signed_value, hex_digit, byte_value, value_of};

use places::{Place, Value};

// Returns the value that a word denotes for a place. Places with other kinds of values have none.
pub(crate) fn value_of(place: Place, word: &[u8]) -> Option<Value>
    ensures { result ≡ value_of place word.now }
{
    match place {
        Place::MemoryByte(_) => byte_value(word),
        Place::FileByte(_, _) => byte_value(word),
        Place::DurableByte(_, _) => byte_value(word),
        Place::PipeByte(_, _) => byte_value(word),
        Place::Last(_) => signed_value(word),
        Place::Slot(_) => None,
        Place::Completion(_) => None,
        Place::Request(_) => None,
        Place::Backlog(_) => None,
        Place::PollerStage => None,
        Place::ThreadStage(_) => None,
        Place::Got(_) => None,
        _ => number_value(word),
    }
}

// Parses a value for an unsigned place.
fn number_value(word: &[u8]) -> Option<Value>
    ensures { result ≡ option_map Value.Number (wide_number_of word.now) }
{
    let number = read_wide_number(word)?;
    Some(Value::Number(number))
}

// Parses a value for a signed place: a decimal number with an optional minus sign.
fn signed_value(word: &[u8]) -> Option<Value>
    ensures { result ≡ signed_value word.now }
{
    match word {
        [b'-', digits @ ..] => negative(read_wide_number(digits)?),
        _ => Some(positive(read_wide_number(word)?)),
    }
}

// A number above `i64::MAX` becomes a `Value::Number`, which never equals a signed value.
fn positive(number: u64) -> Value
    ensures { result ≡ positive number }
{
    if number < 1 << 63 {
        Value::Signed(number as i64)
    } else {
        Value::Number(number)
    }
}

// Returns `None` for -0. A number below `i64::MIN` becomes a `Value::Number`.
fn negative(number: u64) -> Option<Value>
    ensures { result ≡ negative number }
{
    if number == 0 {
        None
    } else if number <= 1 << 63 {
        Some(Value::Signed(-i128::from(number) as i64))
    } else {
        Some(Value::Number(number))
    }
}

// Parses a byte from two lower-case hex digits.
fn byte_value(word: &[u8]) -> Option<Value>
    ensures { result ≡ byte_value word.now }
{
    match word {
        [high, low] => {
            let (high, low) = (hex_digit(*high)?, hex_digit(*low)?);
            Some(Value::Byte(16 * high + low))
        }
        _ => None,
    }
}

fn hex_digit(digit: u8) -> Option<u8>
    ensures value { result ≡ hex_digit digit }
    ensures small { IfSome result (λ n. n < 16) }
{
    match digit {
        b'0'..=b'9' => Some(digit - b'0'),
        b'a'..=b'f' => Some(digit - b'a' + 10),
        _ => None,
    }
}

// Parses a decimal number below 2^64, without leading zeros.
fn read_wide_number(word: &[u8]) -> Option<u64>
    ensures { result ≡ wide_number_of word.now }
{
    if !is_numeral(word) {
        return None;
    }
    read_digits(word)
}

fn read_digits(word: &[u8]) -> Option<u64>
    requires { is_numeral word.now ≡ true }
    ensures { result ≡ wide_number_of word.now }
{
    match std::str::from_utf8(word) {
        Ok(text) => text.parse::<u64>().ok(),
        Err(_) => None,
    }
}

// Whether a word is a decimal number without leading zeros.
fn is_numeral(word: &[u8]) -> bool
    ensures { result ≡ is_numeral word.now }
{
    is_digits(word) && !word.is_empty() && (word.len() < 2 || word[0] != b'0')
}

fn is_digits(word: &[u8]) -> bool
    ensures { result ≡ list_all is_ascii_digit word.now }
{
    word.iter().all(|b| b.is_ascii_digit())
}
