// Bits of one word.
ghost use Rattle.std.specs.Prelude.{◌≡◌, ◌<◌, ◌≤◌, ◌-◌, ◌^◌, ◌==◌, ℕ};
ghost use Rattle.std.specs.Int.{bit_at};

/// How many bits a word has.
pub(crate) const BITS: u64 = 64;

// The first place from one on whose bit is 1: 64 where there is none.
pub(crate) fn next_one(word: u64, from: u64) -> u64
    requires { from ≤ 64 }
    ensures from { from ≤ result }
    ensures within { result ≤ 64 }
    ensures zeros { (i : ℕ) → from ≤ i → i < result → bit_at word i ≡ 0 }
    ensures one { result < 64 → bit_at word result ≡ 1 }
{
    if from == BITS {
        return BITS;
    }
    let rest = word >> from;
    if rest == 0 {
        return BITS;
    }
    from + u64::from(rest.trailing_zeros())
}

// The first place from one on whose bit is 0: 64 where there is none.
pub(crate) fn next_zero(word: u64, from: u64) -> u64
    requires { from ≤ 64 }
    ensures from { from ≤ result }
    ensures within { result ≤ 64 }
    ensures ones { (i : ℕ) → from ≤ i → i < result → bit_at word i ≡ 1 }
    ensures zero { result < 64 → bit_at word result ≡ 0 }
{
    next_one(!word, from)
}

// The word whose bits are 1 just from one place up to another.
fn mask(from: u64, to: u64) -> u64
    requires { (from < to) × (to ≤ 64) }
    ensures { result ≡ 2 ^ to - 2 ^ from }
{
    (u64::MAX >> (BITS - to)) - ((1 << from) - 1)
}

// The word with this bit from one place up to another, and its own elsewhere.
pub(crate) fn with_bits(word: u64, from: u64, to: u64, value: bool) -> u64
    requires { (from < to) × (to ≤ 64) }
    ensures inside { (i : ℕ) → from ≤ i → i < to → (bit_at result i == 1) ≡ value }
    ensures before { (i : ℕ) → i < from → bit_at result i ≡ bit_at word i }
    ensures after { (i : ℕ) → to ≤ i → i < 64 → bit_at result i ≡ bit_at word i }
{
    let bits = mask(from, to);
    if value { word | bits } else { word & !bits }
}
