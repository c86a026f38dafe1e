// A sieve, which tells of most places that no planned write has them.
ghost use Rattle.std.specs.Prelude.{◌≡◌, ◌+◌, ◌/◌, ◌^◌, ◌<◌, ℕ, true};
ghost use Rattle.uw_words.specs.Slots.{sieve_mark, Passes};

// An odd number near 2^32 divided by the golden ratio, which spreads places that follow each other.
const SPREAD: u32 = 0x9E37_79B1;

// As many words as the highest bits of a mark tell apart.
const WORD_BITS: u32 = 10;

/// How many words it has, of 32 bits each.
pub(crate) const SIEVE_WORDS: usize = 1 << WORD_BITS;

/// What each word is where no place is let through.
pub(crate) const SHUT: u32 = u32::MAX;

// The mark of a place.
fn mark_of(at: u64) -> u32
    ensures { result ≡ sieve_mark at }
{
    ((at % (1 << 32)) as u32).wrapping_mul(SPREAD)
}

// The word that a place with this mark belongs to.
fn word_of(mark: u32) -> usize
    ensures word { result ≡ mark / 2 ^ 22 }
    ensures within { result < 1024 }
{
    (mark >> (u32::BITS - WORD_BITS)) as usize
}

// Lets a place through.
pub(crate) fn admit(sieve: &mut [u32; SIEVE_WORDS], at: u64)
    ensures admitted { Passes sieve.new at }
    ensures kept { (other : ℕ) → Passes sieve.old other → Passes sieve.new other }
{
    let mark = mark_of(at);
    sieve[word_of(mark)] &= !mark;
}

// Whether a place is let through.
pub(crate) fn passes(sieve: &[u32; SIEVE_WORDS], at: u64) -> bool
    ensures { Passes sieve.now at → result ≡ true }
{
    let mark = mark_of(at);
    (sieve[word_of(mark)] & mark) == 0
}

// Lets the places of planned writes through no more. No promise needs it: it keeps the sieve fine. Its time grows with
// the writes and not with the sieve.
pub(crate) fn shut_out(sieve: &mut [u32; SIEVE_WORDS], plan: &[(u64, u64)]) {
    for (at, _) in plan {
        sieve[word_of(mark_of(*at))] = SHUT;
    }
}
