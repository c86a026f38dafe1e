// What a value says.
ghost use Rattle.std.specs.Prelude.{◌≡◌, ◌≤◌, IfSome};
ghost use Rattle.uw_conf.specs.Caches.{number_in, flag_of};

use uw_base::read_decimal;
use uw_base::texts::is;

/// The number of a text, from `low` to `high`.
pub fn number_in(low: u64, high: u64, text: &[u8]) -> Option<u64>
    ensures number { result ≡ number_in low high text.now }
    ensures within { IfSome result (λ n. (low ≤ n) × (n ≤ high)) }
{
    let number = read_decimal(text)?;
    if low <= number && number <= high {
        Some(number)
    } else {
        None
    }
}

/// The flag of a text.
pub fn flag_of(text: &[u8]) -> Option<bool>
    ensures { result ≡ flag_of text.now }
{
    if is(text, b"1") || is(text, b"true") {
        return Some(true);
    }
    if is(text, b"0") || is(text, b"false") {
        return Some(false);
    }
    None
}
