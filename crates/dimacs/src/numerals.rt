//! Numbers as they are printed: decimal, without leading zeros. Main function: `read_numeral`. It allocates nothing.

ghost use Rattle.std.specs.Prelude.{◌≡◌, ◌+◌, ◌*◌, ◌<◌, ◌≤◌, ◌^◌, ◌↔◌, ℕ, decimal, IsTrue, IfSome, IfNone};
ghost use Rattle.std.specs.Str.Parse.{AllDigits, digits_value};
ghost use Rattle.dimacs.specs.Dimacs.{most_of_kind};

use itoa::Buffer;

/// The number with one more digit, none where it has over 64 bits.
fn with_digit(number: u64, digit: u8) -> Option<u64>
    ensures some { IfSome result (λ n. n ≡ number * 10 + digit) }
    ensures none { IfNone result (2 ^ 64 ≤ number * 10 + digit) }
{
    match number.checked_mul(10) {
        Some(tens) => tens.checked_add(u64::from(digit)),
        None => None,
    }
}

/// The number that digits write, none where they aren't digits or the number has over 64 bits.
fn number_of_digits(text: &[u8]) -> Option<u64>
    ensures some { IfSome result (λ n. n ≡ digits_value 10 text.now) }
    ensures none { IfNone result (AllDigits 10 text.now → 2 ^ 64 ≤ digits_value 10 text.now) }
{
    let mut number: u64 = 0;
    for byte in text {
        if !byte.is_ascii_digit() {
            return None;
        }
        match with_digit(number, *byte - b'0') {
            Some(more) => number = more,
            None => return None,
        }
    }
    Some(number)
}

fn is_printed(number: u64, text: &[u8]) -> bool
    ensures { IsTrue result ↔ (text.now ≡ decimal number) }
{
    let mut buffer = Buffer::new();
    buffer.format(number).as_bytes() == text
}

/// The number of 64 bits that is printed as this text.
fn read_count(text: &[u8]) -> Option<u64>
    ensures some { IfSome result (λ n. text.now ≡ decimal n) }
    ensures none { IfNone result ((n : ℕ) → n < 2 ^ 64 → text.now ≡ decimal n → ⊥) }
{
    match number_of_digits(text) {
        Some(number) => {
            if is_printed(number, text) {
                Some(number)
            } else {
                None
            }
        }
        None => None,
    }
}

/// The number, none over the largest, that is printed as this text.
pub fn read_numeral(text: &[u8]) -> Option<usize>
    ensures some { IfSome result (λ n. text.now ≡ decimal n) }
    ensures most { IfSome result (λ n. n ≤ most_of_kind) }
    ensures none { IfNone result ((n : ℕ) → n ≤ most_of_kind → text.now ≡ decimal n → ⊥) }
{
    match read_count(text) {
        Some(number) => {
            if number < 1 << 31 {
                Some(number as usize)
            } else {
                None
            }
        }
        None => None,
    }
}
