//! Numbers in a text.
ghost use Rattle.std.specs.Prelude.{◌≡◌, option_map};
ghost use Rattle.spa_text_read.specs.Numerals as spec;

use hex::FromHex;

/// The number that the text is.
#[tactic(auto, using(crate::proofs::Digits::unsigned_some, crate::proofs::Digits::unsigned_none))]
pub fn unsigned(text: &str) -> Option<u32>
    ensures { result ≡ spec.unsigned_number text.now }
{
    match fast_float::parse_u64(text.as_bytes()) {
        Ok(number) => {
            if number <= u32::MAX as u64 {
                Some(number as u32)
            } else {
                None
            }
        }
        Err(_) => None,
    }
}

/// The number that the name of a key is. Few are: behind the digits of ASCII no number begins.
#[tactic(auto, using(crate::proofs::Digits::no_number))]
#[inline(always)]
pub fn number_of_digits(name: &str) -> Option<u32>
    ensures { result ≡ spec.unsigned_number name.now }
{
    match name.as_bytes() {
        [first, ..] if *first > b'9' => None,
        _ => unsigned(name),
    }
}

/// The signed number of 32 bits that the text is.
#[tactic(auto, using(crate::proofs::Digits::signed_some, crate::proofs::Digits::signed_none))]
pub(crate) fn signed(text: &str) -> Option<i32>
    ensures { result ≡ spec.signed_number 31 text.now }
{
    match fast_float::parse_i64(text.as_bytes()) {
        Ok(number) => i32::try_from(number).ok(),
        Err(_) => None,
    }
}

/// The signed number of 64 bits that the text is.
#[tactic(auto, using(crate::proofs::Digits::signed_some, crate::proofs::Digits::signed_none))]
pub(crate) fn signed_wide(text: &str) -> Option<i64>
    ensures { result ≡ spec.signed_number 63 text.now }
{
    match fast_float::parse_i64(text.as_bytes()) {
        Ok(number) => Some(number),
        Err(_) => None,
    }
}

/// What follows `0x`.
#[tactic(auto, unfolding(crate::specs::Numerals::behind_0x))]
fn behind_0x(text: &[u8]) -> Option<&[u8]>
    ensures { option_map (λ digits. digits.now) result ≡ spec.behind_0x text.now }
{
    match text {
        [b'0', b'x', digits @ ..] => Some(digits),
        _ => None,
    }
}

/// The number of eight digits behind `0x`.
#[tactic(auto, unfolding(crate::specs::Numerals::word_bits))]
pub(crate) fn word_bits(text: &str) -> Option<u32>
    ensures { result ≡ spec.word_bits text.now }
{
    let Some(digits) = behind_0x(text.as_bytes()) else {
        return None;
    };
    match <[u8; 4] as FromHex>::from_hex(digits) {
        Ok(bytes) => Some(u32::from_be_bytes(bytes)),
        Err(_) => None,
    }
}

/// The number of sixteen digits behind `0x`.
#[tactic(auto, unfolding(crate::specs::Numerals::wide_bits))]
pub(crate) fn wide_bits(text: &str) -> Option<u64>
    ensures { result ≡ spec.wide_bits text.now }
{
    let Some(digits) = behind_0x(text.as_bytes()) else {
        return None;
    };
    match <[u8; 8] as FromHex>::from_hex(digits) {
        Ok(bytes) => Some(u64::from_be_bytes(bytes)),
        Err(_) => None,
    }
}

/// The bits of the finite float of 32 bits that the digits are.
#[tactic(auto, unfolding(crate::specs::Numerals::float_digits))]
pub(crate) fn float_digits(text: &str) -> Option<u32>
    ensures { result ≡ spec.float_digits text.now }
{
    let Ok(float) = fast_float::parse::<f32, _>(text) else {
        return None;
    };
    if float.is_finite() {
        Some(float.to_bits())
    } else {
        None
    }
}

/// The bits of the finite float of 64 bits that the digits are.
#[tactic(auto, unfolding(crate::specs::Numerals::double_digits))]
pub(crate) fn double_digits(text: &str) -> Option<u64>
    ensures { result ≡ spec.double_digits text.now }
{
    let Ok(float) = fast_float::parse::<f64, _>(text) else {
        return None;
    };
    if float.is_finite() {
        Some(float.to_bits())
    } else {
        None
    }
}
