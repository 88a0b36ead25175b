//! Addresses: the moments of a run.

/// Reads an address: a decimal number, or a hexadecimal one after `0x`.
pub(crate) fn address_of(text: &str) -> Option<i64> {
    match text.strip_prefix("0x") {
        Some(digits) => i64::from_str_radix(digits, 16).ok(),
        None => text.parse::<i64>().ok(),
    }
}
