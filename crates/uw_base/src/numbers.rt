// Numbers as decimal texts, and the hash of a key.
ghost use Rattle.std.specs.Prelude.{◌≡◌, ◌^◌, ◌<◌, ◌&&◌, if◌then◌else◌, IsTrue, ◌++◌, Some, None, nat_lt, decimal, OnOk, OnErr};
ghost use Rattle.std.specs.Fmt.{signed_decimal};
ghost use Rattle.std.specs.List.{list_all};
ghost use Rattle.uw_base.specs.Numbers.{are_digits, decimal_of, digits_number, djb33x_of, is_digit, signed_of};

use crate::{Bytes, Memory};
use itoa::Buffer;

/// The most digits of a number below 2^64.
const DIGITS: usize = 20;

/// The most digits of a number of an `i64`.
const SIGNED_DIGITS: usize = 19;

/// One more than the highest hash.
const HASHES: u64 = 1 << 32;

// The number below 2^64 that digits write.
fn number_of(digits: &[u8]) -> Option<u64>
    requires { IsTrue (list_all is_digit digits.now) }
    ensures { result ≡ (if nat_lt (digits_number digits.now) (2 ^ 64) then Some (digits_number digits.now) else None) }
{
    let mut number = 0u64;
    for digit in digits {
        number = number
            .checked_mul(10)?
            .checked_add(u64::from(*digit - b'0'))?;
    }
    Some(number)
}

// Whether each byte is a digit.
fn is_all_digits(text: &[u8]) -> bool
    ensures { result ≡ list_all is_digit text.now }
{
    text.iter().all(u8::is_ascii_digit)
}

// The number below 2^64 that 1 to `most` digits write, and nothing else.
fn digits_of(text: &[u8], most: usize) -> Option<u64>
    ensures { result ≡ (if are_digits most text.now && nat_lt (digits_number text.now) (2 ^ 64) then Some (digits_number text.now) else None) }
{
    if text.is_empty() || most < text.len() || !is_all_digits(text) {
        return None;
    }
    number_of(text)
}

/// Reads a number in decimal: 1 to 20 digits of a number below 2^64, and nothing else.
pub fn read_decimal(text: &[u8]) -> Option<u64>
    ensures { result ≡ decimal_of text.now }
{
    digits_of(text, DIGITS)
}

/// Reads a number with its sign in decimal: an optional `-` and 1 to 19 digits of an `i64`, and nothing else.
pub fn read_signed(text: &[u8]) -> Option<i64>
    ensures { result ≡ signed_of text.now }
{
    match text {
        [b'-', digits @ ..] => 0i64.checked_sub_unsigned(digits_of(digits, SIGNED_DIGITS)?),
        digits => 0i64.checked_add_unsigned(digits_of(digits, SIGNED_DIGITS)?),
    }
}

/// Puts a number in decimal at the end, without leading zeros.
pub fn put_decimal(out: &mut Bytes, n: u64) -> Result<(), Memory>
    ensures ok { OnOk result (out.new ≡ out.old ++ decimal n) }
    ensures err { OnErr result (out.new ≡ out.old) }
{
    let mut digits = Buffer::new();
    out.append(digits.format(n).as_bytes())
}

/// Puts a number in decimal at the end, without leading zeros, with a `-` in front where it is negative.
pub fn put_signed(out: &mut Bytes, n: i64) -> Result<(), Memory>
    ensures ok { OnOk result (out.new ≡ out.old ++ signed_decimal n) }
    ensures err { OnErr result (out.new ≡ out.old) }
{
    let mut text = Buffer::new();
    out.append(text.format(n).as_bytes())
}

/// The hash DJB33X of a key, a number below 2^32 (The Caching framework).
pub fn djb33x(key: &[u8]) -> u64
    ensures hash { result ≡ djb33x_of key.now }
    ensures fits { result < 2 ^ 32 }
{
    let mut hash = 5381;
    for byte in key {
        hash = ((hash * 33) ^ u64::from(*byte)) % HASHES;
    }
    hash
}
