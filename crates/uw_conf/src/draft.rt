// The line of a cache, pair by pair.
ghost use Rattle.std.specs.Prelude.{◌≡◌, ◌==◌, if◌then◌else◌, length, codes, Some};
ghost use Rattle.std.specs.Int.{next_multiple_of};
ghost use Rattle.std.specs.Str.{bytes_eq};
ghost use Rattle.uw_conf.specs.Caches.{blank_draft, spoiled, number_in, flag_of, put, with_key, with_pair, draft_of};
ghost use Rattle.uw_conf.specs.ReadingSteps.{draft_seen};

use crate::values::{flag_of, number_in};
use uw_base::texts::{cut, is};

const MOST_ITEMS: u64 = 1_048_576;

const MOST_BLOCKSIZE: u64 = 1_048_576;

const MOST_BLOCKS: u64 = 16_777_216;

const MOST_KEYSIZE: u64 = 65_535;

const MOST_CHAINS: u64 = 1_048_576;

/// What the pairs of a line say so far, whether a key was unknown, and whether a value was bad.
#[derive(Clone, Copy)]
pub struct CacheDraft<'a> {
    pub name: Option<&'a [u8]>,
    pub items: Option<u64>,
    pub blocksize: u64,
    pub blocks: Option<u64>,
    pub keysize: u64,
    pub chains: Option<u64>,
    pub bitmap: bool,
    pub purge_lru: bool,
    pub sweep_on_full: bool,
    pub clear_on_full: bool,
    pub unknown: bool,
    pub bad: bool,
}

impl<'a> CacheDraft<'a> {
    // Before the first pair: the defaults.
    fn blank() -> CacheDraft<'a>
        ensures { draft_seen result ≡ blank_draft }
    {
        CacheDraft {
            name: None,
            items: None,
            blocksize: 65_536,
            blocks: None,
            keysize: 2_048,
            chains: None,
            bitmap: false,
            purge_lru: false,
            sweep_on_full: false,
            clear_on_full: false,
            unknown: false,
            bad: false,
        }
    }

    // A draft with a bad value.
    fn spoiled(self) -> CacheDraft<'a>
        ensures { draft_seen result ≡ spoiled (draft_seen self.entry) }
    {
        CacheDraft { bad: true, ..self }
    }

    fn with_name(self, value: &'a [u8]) -> CacheDraft<'a>
        ensures { draft_seen result
            ≡ (if length value.now == 0 then spoiled (draft_seen self.entry) else record (draft_seen self.entry) { name = Some value.now }) }
    {
        if value.is_empty() {
            return self.spoiled();
        }
        CacheDraft {
            name: Some(value),
            ..self
        }
    }

    fn with_items(self, value: &[u8]) -> CacheDraft<'a>
        ensures { draft_seen result
            ≡ put (draft_seen self.entry) (number_in 1 1048576 value.now) (λ n. record (draft_seen self.entry) { items = Some n }) }
    {
        match number_in(1, MOST_ITEMS, value) {
            Some(items) => CacheDraft {
                items: Some(items),
                ..self
            },
            None => self.spoiled(),
        }
    }

    fn with_blocksize(self, value: &[u8]) -> CacheDraft<'a>
        ensures { draft_seen result
            ≡ put (draft_seen self.entry) (number_in 1 1048576 value.now) (λ n. record (draft_seen self.entry) { blocksize = next_multiple_of n 8 }) }
    {
        match number_in(1, MOST_BLOCKSIZE, value) {
            Some(blocksize) => CacheDraft {
                blocksize: blocksize.next_multiple_of(8),
                ..self
            },
            None => self.spoiled(),
        }
    }

    fn with_blocks(self, value: &[u8]) -> CacheDraft<'a>
        ensures { draft_seen result
            ≡ put (draft_seen self.entry) (number_in 1 16777216 value.now) (λ n. record (draft_seen self.entry) { blocks = Some n }) }
    {
        match number_in(1, MOST_BLOCKS, value) {
            Some(blocks) => CacheDraft {
                blocks: Some(blocks),
                ..self
            },
            None => self.spoiled(),
        }
    }

    fn with_keysize(self, value: &[u8]) -> CacheDraft<'a>
        ensures { draft_seen result
            ≡ put (draft_seen self.entry) (number_in 1 65535 value.now) (λ n. record (draft_seen self.entry) { keysize = n }) }
    {
        match number_in(1, MOST_KEYSIZE, value) {
            Some(keysize) => CacheDraft { keysize, ..self },
            None => self.spoiled(),
        }
    }

    fn with_chains(self, value: &[u8]) -> CacheDraft<'a>
        ensures { draft_seen result
            ≡ put (draft_seen self.entry) (number_in 1 1048576 value.now) (λ n. record (draft_seen self.entry) { chains = Some n }) }
    {
        match number_in(1, MOST_CHAINS, value) {
            Some(chains) => CacheDraft {
                chains: Some(chains),
                ..self
            },
            None => self.spoiled(),
        }
    }

    fn with_hash(self, value: &[u8]) -> CacheDraft<'a>
        ensures { draft_seen result
            ≡ (if bytes_eq value.now (codes "djb33x") then draft_seen self.entry else spoiled (draft_seen self.entry)) }
    {
        if is(value, b"djb33x") {
            return self;
        }
        self.spoiled()
    }

    fn with_bitmap(self, value: &[u8]) -> CacheDraft<'a>
        ensures { draft_seen result
            ≡ put (draft_seen self.entry) (flag_of value.now) (λ b. record (draft_seen self.entry) { bitmap = b }) }
    {
        match flag_of(value) {
            Some(bitmap) => CacheDraft { bitmap, ..self },
            None => self.spoiled(),
        }
    }

    fn with_purge_lru(self, value: &[u8]) -> CacheDraft<'a>
        ensures { draft_seen result
            ≡ put (draft_seen self.entry) (flag_of value.now) (λ b. record (draft_seen self.entry) { purge_lru = b }) }
    {
        match flag_of(value) {
            Some(purge_lru) => CacheDraft { purge_lru, ..self },
            None => self.spoiled(),
        }
    }

    fn with_sweep_on_full(self, value: &[u8]) -> CacheDraft<'a>
        ensures { draft_seen result
            ≡ put (draft_seen self.entry) (flag_of value.now) (λ b. record (draft_seen self.entry) { sweep_on_full = b }) }
    {
        match flag_of(value) {
            Some(sweep_on_full) => CacheDraft {
                sweep_on_full,
                ..self
            },
            None => self.spoiled(),
        }
    }

    fn with_clear_on_full(self, value: &[u8]) -> CacheDraft<'a>
        ensures { draft_seen result
            ≡ put (draft_seen self.entry) (flag_of value.now) (λ b. record (draft_seen self.entry) { clear_on_full = b }) }
    {
        match flag_of(value) {
            Some(clear_on_full) => CacheDraft {
                clear_on_full,
                ..self
            },
            None => self.spoiled(),
        }
    }

    // A key and its value.
    fn with_key(self, key: &[u8], value: &'a [u8]) -> CacheDraft<'a>
        ensures { draft_seen result ≡ with_key (draft_seen self.entry) key.now value.now }
    {
        if is(key, b"name") {
            return self.with_name(value);
        }
        if is(key, b"items") || is(key, b"maxitems") || is(key, b"max-items") {
            return self.with_items(value);
        }
        if is(key, b"blocksize") {
            return self.with_blocksize(value);
        }
        if is(key, b"blocks") {
            return self.with_blocks(value);
        }
        if is(key, b"keysize") || is(key, b"key_size") {
            return self.with_keysize(value);
        }
        if is(key, b"hashsize") || is(key, b"hash_size") {
            return self.with_chains(value);
        }
        if is(key, b"hash") {
            return self.with_hash(value);
        }
        if is(key, b"bitmap") {
            return self.with_bitmap(value);
        }
        if is(key, b"purge_lru") {
            return self.with_purge_lru(value);
        }
        if is(key, b"sweep_on_full") {
            return self.with_sweep_on_full(value);
        }
        if is(key, b"clear_on_full") {
            return self.with_clear_on_full(value);
        }
        CacheDraft {
            unknown: true,
            ..self
        }
    }

    // A pair, which parts at its first `=`; one without it is bad.
    fn with_pair(self, pair: &'a [u8]) -> CacheDraft<'a>
        ensures { draft_seen result ≡ with_pair (draft_seen self.entry) pair.now }
    {
        let (key, value) = cut(pair, b'=');
        match value {
            Some(value) => self.with_key(key, value),
            None => self.spoiled(),
        }
    }

    // Takes one more pair.
    fn take_pair(&mut self, pair: &'a [u8])
        ensures { draft_seen self.new ≡ with_pair (draft_seen self.old) pair.now }
    {
        *self = self.with_pair(pair);
    }
}

/// What a line of pairs, joined by commas, says.
pub fn draft_of<'a>(text: &'a [u8]) -> CacheDraft<'a>
    ensures { draft_seen result ≡ draft_of text.now }
{
    let mut draft = CacheDraft::blank();
    let mut rest = Some(text);
    'pairs: while let Some(left) = rest {
        let (pair, more) = cut(left, b',');
        draft.take_pair(pair);
        rest = more;
    }
    draft
}
