// Numbers, each of which has one spelling.
ghost use Rattle.std.specs.Prelude.{◌≡◌, ◌<◌, ◌^◌, IsTrue, ◌↔◌, ◌++◌, List, ℕ, ℤ, FitsSigned};
ghost use Rattle.std.specs.Prelude.{IfSome, IfNone, OnOk, OnErr};
ghost use Rattle.std.specs.Int.{w64};
ghost use Rattle.std.specs.Fmt.{signed_decimal};
ghost use Rattle.std.specs.Str.Parse.{ParsesSigned};
ghost use Rattle.srs_text.specs.Spelling.{IsNumber, Spells, AreDigits, value_after, StartsPositive, sign_len};

use crate::{Bytes, Failed, NoMemory};
use itoa::Buffer;

// Ten times a number below this, and a digit, are below 2^63.
const SHORT: u64 = 1 << 59;

/// The number that the token spells: `0`, or a digit 1 to 9 and digits, or a minus before such.
/// None for any other token, also one with a plus, a leading zero or `-0`, and for a number below
/// -2^63 or above 2^63 - 1.
pub fn number(token: &[u8]) -> Option<i64>
    ensures some { IfSome result (IsNumber token.now) }
    ensures none { IfNone result ((z : ℤ) → IsNumber token.now z → ⊥) }
{
    if token.len() == 1 && token[0] == b'0' {
        return Some(0);
    }
    if !starts_positive(token, sign_len(token)) {
        return None;
    }
    if let Some(n) = short_number(token) {
        return Some(n);
    }
    parsed(token).ok()
}

// The number that the token spells, unless it is too long to be read without care.
fn short_number(token: &[u8]) -> Option<i64>
    requires { StartsPositive token.now (sign_len token.now) }
    ensures { IfSome result (IsNumber token.now) }
{
    if sign_len(token) == 0 {
        let size = short_value(token)?;
        return Some(size as i64);
    }
    let size = short_value(&token[1..])?;
    Some(-(size as i64))
}

// What the digits say, unless there are too many or another byte is among them.
fn short_value(digits: &[u8]) -> Option<u64>
    ensures digits { IfSome result (λ n. AreDigits digits.now) }
    ensures value { IfSome result (λ n. n ≡ value_after 0 digits.now) }
    ensures short { IfSome result (λ n. n < 2 ^ 63) }
{
    let mut n = 0u64;
    for digit in digits {
        if *digit < b'0' || *digit > b'9' || n >= SHORT {
            return None;
        }
        n = n * 10 + u64::from(*digit - b'0');
    }
    Some(n)
}

// How many bytes a minus takes.
fn sign_len(token: &[u8]) -> usize
    ensures { result ≡ sign_len token.now }
{
    if !token.is_empty() && token[0] == b'-' {
        1
    } else {
        0
    }
}

fn starts_positive(token: &[u8], at: usize) -> bool
    ensures { IsTrue result ↔ StartsPositive token.now at }
{
    at < token.len() && token[at] >= b'1' && token[at] <= b'9'
}

// What std reads, where a plus and leading zeros are fine too.
fn parsed(token: &[u8]) -> Result<i64, Failed>
    ensures { ParsesSigned w64 10 token.now result }
{
    let Ok(text) = str::from_utf8(token) else {
        return Err(Failed);
    };
    match text.parse::<i64>() {
        Ok(n) => Ok(n),
        Err(_) => Err(Failed),
    }
}

/// Appends the one spelling of the number. An `Err` is want of memory, and changes nothing.
pub fn put_number(out: &mut Bytes, n: i128) -> Result<(), NoMemory>
    ensures ok { OnOk result (out.new ≡ out.old ++ signed_decimal n) }
    ensures err { OnErr result (out.new ≡ out.old) }
{
    let mut buffer = Buffer::new();
    out.extend(buffer.format(n).as_bytes())
}

/// Each number has one spelling, which is what is written.
pub fn one_spelling()
    ensures written { (token : List ℕ) (z : ℤ) → FitsSigned w64 z → Spells token z ↔
        (token ≡ signed_decimal z) }
    ensures once { (token : List ℕ) (y z : ℤ) → IsNumber token y → IsNumber token z → y ≡ z }
{}
