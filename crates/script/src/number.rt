//! Whole numbers in a JSON text, and their ranges.
ghost use Rattle.std.specs.Prelude.{◌≡◌, option_map};
ghost use Rattle.serde_json.specs.View.{view};
ghost use Rattle.script.specs.Numbers.{whole_of, whole_or_zero, between, signed_word, number_between};

use crate::fault::{Path, ScriptFault};
use serde_json::Value;

/// A whole number, before its range is checked.
#[derive(Clone, Copy)]
pub enum Whole {
    Natural(u64),
    Negative(i64),
}

/// Returns the whole number in a value. 1.0, 1e2 and -0 aren't accepted.
pub fn whole_of(value: &Value) -> Option<Whole>
    ensures { result ≡ whole_of (view value.now) }
{
    match value.as_u64() {
        Some(n) => Some(Whole::Natural(n)),
        None => match value.as_i64() {
            Some(z) => Some(Whole::Negative(z)),
            None => None,
        },
    }
}

/// Returns the whole number of an optional member, which is 0 by default.
pub fn whole_or_zero(found: Option<&Value>) -> Option<Whole>
    ensures { result ≡ whole_or_zero (option_map (λ v. view v.now) found.entry) }
{
    match found {
        None => Some(Whole::Natural(0)),
        Some(value) => whole_of(value),
    }
}

/// Returns the number if it is within low..=high.
pub fn between(low: u64, high: u64, number: Whole) -> Option<u64>
    ensures { result ≡ between low high number }
{
    match number {
        Whole::Natural(n) => if low <= n && n <= high { Some(n) } else { None },
        Whole::Negative(_) => None,
    }
}

/// Returns the number if it fits a `u8`.
pub fn byte(number: Whole) -> Option<u8>
    ensures { result ≡ between 0 255 number }
{
    match between(0, 255, number) {
        Some(n) => Some(n as u8),
        None => None,
    }
}

/// Returns the number if it fits a `u16`.
pub fn half_word(number: Whole) -> Option<u16>
    ensures { result ≡ between 0 65535 number }
{
    match between(0, 65535, number) {
        Some(n) => Some(n as u16),
        None => None,
    }
}

/// Returns the number if it fits a `u32`.
pub fn word(number: Whole) -> Option<u32>
    ensures { result ≡ between 0 4294967295 number }
{
    match between(0, 4294967295, number) {
        Some(n) => Some(n as u32),
        None => None,
    }
}

/// Returns the number if it fits a `u64`.
pub fn long(number: Whole) -> Option<u64>
    ensures { result ≡ between 0 18446744073709551615 number }
{
    between(0, u64::MAX, number)
}

/// Returns the number if it fits an `i32`.
pub fn signed_word(number: Whole) -> Option<i32>
    ensures { result ≡ signed_word number }
{
    match number {
        Whole::Natural(n) => if n <= 2147483647 {
            Some(n as i32)
        } else {
            None
        },
        Whole::Negative(z) => if -2147483648 <= z && z <= 2147483647 {
            Some(z as i32)
        } else {
            None
        },
    }
}

/// Reads a whole number within low..=high, or returns a fault at the path.
pub fn number_between(path: Path, low: u64, high: u64, value: &Value) -> Result<u64, ScriptFault>
    ensures { result ≡ number_between path low high (view value.now) }
{
    let Some(number) = whole_of(value) else {
        return Err(ScriptFault::Shape(path));
    };
    match between(low, high, number) {
        Some(n) => Ok(n),
        None => Err(ScriptFault::Range(path)),
    }
}
