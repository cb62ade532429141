//! Numbers as they are printed: decimal, without leading zeros and without `-0`. Main functions: `read_count`,
//! `read_number`. They allocate nothing.

ghost use Rattle.std.specs.Prelude.{◌≡◌, ◌+◌, ◌*◌, ◌<◌, ◌≤◌, ◌^◌, ◌↔◌, ◌∷◌, ℕ, ℤ, decimal, IsTrue, IfSome, IfNone};
ghost use Rattle.std.specs.Prelude.{unsigned_abs, neg_ℤ, pos};
ghost use Rattle.std.specs.Fmt.{signed_decimal};
ghost use Rattle.std.specs.Str.Parse.{AllDigits, digits_value};

use itoa::Buffer;

/// The number with one more digit, none where it has over 64 bits.
fn with_digit(number: u64, digit: u8) -> Option<u64>
    ensures some { IfSome result (λ n. n ≡ number * 10 + digit) }
    ensures none { IfNone result (2 ^ 64 ≤ number * 10 + digit) }
{
    match number.checked_mul(10) {
        Some(tens) => tens.checked_add(u64::from(digit)),
        None => None,
    }
}

/// The number that digits write, none where they aren't digits or the number has over 64 bits.
fn number_of_digits(text: &[u8]) -> Option<u64>
    ensures some { IfSome result (λ n. n ≡ digits_value 10 text.now) }
    ensures none { IfNone result (AllDigits 10 text.now → 2 ^ 64 ≤ digits_value 10 text.now) }
{
    let mut number: u64 = 0;
    for byte in text {
        if !byte.is_ascii_digit() {
            return None;
        }
        match with_digit(number, *byte - b'0') {
            Some(more) => number = more,
            None => return None,
        }
    }
    Some(number)
}

fn is_printed(number: u64, text: &[u8]) -> bool
    ensures { IsTrue result ↔ (text.now ≡ decimal number) }
{
    let mut buffer = Buffer::new();
    buffer.format(number).as_bytes() == text
}

/// The number of 64 bits that is printed as this text.
pub fn read_count(text: &[u8]) -> Option<u64>
    ensures some { IfSome result (λ n. text.now ≡ decimal n) }
    ensures none { IfNone result ((n : ℕ) → n < 2 ^ 64 → text.now ≡ decimal n → ⊥) }
{
    match number_of_digits(text) {
        Some(number) => {
            if is_printed(number, text) {
                Some(number)
            } else {
                None
            }
        }
        None => None,
    }
}

/// The number up to 2^31 that is printed as this text.
fn read_small(text: &[u8]) -> Option<u32>
    ensures some { IfSome result (λ n. text.now ≡ decimal n) }
    ensures most { IfSome result (λ n. n ≤ 2 ^ 31) }
    ensures none { IfNone result ((n : ℕ) → n ≤ 2 ^ 31 → text.now ≡ decimal n → ⊥) }
{
    match read_count(text) {
        Some(number) => {
            if number <= 1 << 31 {
                Some(number as u32)
            } else {
                None
            }
        }
        None => None,
    }
}

/// The number with a minus, none for 0, which has none.
fn with_minus(number: u32) -> Option<i64>
    ensures some { IfSome result (λ z. z ≡ neg_ℤ (pos number)) }
    ensures positive { IfSome result (λ z. 0 < number) }
    ensures none { IfNone result (number ≡ 0) }
{
    if number == 0 {
        None
    } else {
        Some(-i64::from(number))
    }
}

/// The number from -2^31 on that is printed as a minus and these digits.
fn read_negative(digits: &[u8]) -> Option<i64>
    ensures some { IfSome result (λ z. 45 ∷ digits.now ≡ signed_decimal z) }
    ensures most { IfSome result (λ z. unsigned_abs z ≤ 2 ^ 31) }
    ensures none { IfNone result ((z : ℤ) → unsigned_abs z ≤ 2 ^ 31 → 45 ∷ digits.now ≡ signed_decimal z → ⊥) }
{
    match read_small(digits) {
        Some(number) => with_minus(number),
        None => None,
    }
}

/// The number from -2^31 to 2^31 that is printed as this text.
pub fn read_number(text: &[u8]) -> Option<i64>
    ensures some { IfSome result (λ z. text.now ≡ signed_decimal z) }
    ensures most { IfSome result (λ z. unsigned_abs z ≤ 2 ^ 31) }
    ensures none { IfNone result ((z : ℤ) → unsigned_abs z ≤ 2 ^ 31 → text.now ≡ signed_decimal z → ⊥) }
{
    match text.strip_prefix(b"-".as_slice()) {
        Some(digits) => read_negative(digits),
        None => match read_small(text) {
            Some(number) => Some(i64::from(number)),
            None => None,
        },
    }
}
