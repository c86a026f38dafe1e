// The keys of `cache2`: what their values may be, and what is said of a key or a value that is not taken.
use crate::parts::{put, put_shown};
use uw_base::texts::{cut, is, is_any, trim_blanks};
use uw_base::{Bytes, Memory, put_decimal, read_decimal};

/// The most caches of a configuration.
const MOST_CACHES: &[u8] = b"16";

/// A number of a cache, which is at least 1.
struct NumberKey {
    names: &'static [&'static [u8]],
    most: u64,
}

const NUMBERS: [NumberKey; 5] = [
    NumberKey {
        names: &[b"items", b"maxitems", b"max-items"],
        most: 1_048_576,
    },
    NumberKey {
        names: &[b"blocksize"],
        most: 1_048_576,
    },
    NumberKey {
        names: &[b"blocks"],
        most: 16_777_216,
    },
    NumberKey {
        names: &[b"keysize", b"key_size"],
        most: 65_535,
    },
    NumberKey {
        names: &[b"hashsize", b"hash_size"],
        most: 1_048_576,
    },
];

const FLAGS: [&[u8]; 4] = [b"bitmap", b"purge_lru", b"sweep_on_full", b"clear_on_full"];

const STORES: [&[u8]; 5] = [
    b"store",
    b"store_sync",
    b"storesync",
    b"store_delete",
    b"storedelete",
];

const SERVERS: [&[u8]; 7] = [
    b"node",
    b"nodes",
    b"sync",
    b"udp",
    b"udp_server",
    b"udp_servers",
    b"udpserver",
];

/// Whether a key is one of `cache2`.
pub fn is_key(key: &[u8]) -> bool {
    is(key, b"name") || is(key, b"hash") || is_any(key, &FLAGS) || number_key(key).is_some()
}

// The most that the number of a key may be.
fn number_key(key: &[u8]) -> Option<u64> {
    for number in &NUMBERS {
        if is_any(key, number.names) {
            return Some(number.most);
        }
    }
    None
}

// What is said of a key that is not known.
fn advice_on_key(key: &[u8]) -> &'static [u8] {
    if is(key, b"max_items") {
        return b" is no key here: write `items`";
    }
    if is(key, b"lru") {
        return b" is no key here: write `purge_lru`";
    }
    if is_any(key, &STORES) {
        return b" is no key here: no cache is kept in a file, so leave it out";
    }
    if is_any(key, &SERVERS) {
        return b" is no key here: caches of several servers are not joined, so leave it out";
    }
    if is(key, b"lastmod") {
        return b" is no key here: no cache keeps when it was changed, so leave it out";
    }
    if is(key, b"no_expire") {
        return b" is no key here: an entry that is set without `expires` never dies, so leave it out";
    }
    if is(key, b"ignore_full") {
        return b" is no key here: a full cache refuses a set and goes on, so leave it out";
    }
    b" is no key of `cache2`: docs/CONFIG.md has them all"
}

/// Says which key of a cache is not known.
pub fn put_unknown_key(out: &mut Bytes, value: &[u8]) -> Result<(), Memory> {
    for pair in value.split(|byte| *byte == b',') {
        let (key, text) = cut(pair, b'=');
        if text.is_some() && !is_key(key) {
            put_shown(out, key)?;
            if is_key(trim_blanks(key)) {
                return out.append(
                    b" has a blank beside it: the pairs of `cache2` are joined by a comma alone",
                );
            }
            return out.append(advice_on_key(trim_blanks(key)));
        }
    }
    out.append(b"a key of `cache2` is not known: docs/CONFIG.md has them all")
}

// Whether a text is a number from 1 to a limit.
fn is_within(text: &[u8], most: u64) -> bool {
    match read_decimal(text) {
        Some(number) => number >= 1 && number <= most,
        None => false,
    }
}

// Says why the value of a key is bad, if it is, and whether it is.
fn put_bad_pair(out: &mut Bytes, pair: &[u8]) -> Result<bool, Memory> {
    let (key, text) = cut(pair, b'=');
    let Some(text) = text else {
        put_shown(out, pair)?;
        out.append(b" has no `=`: the value of `cache2` is pairs `key=value`, joined by commas")?;
        return Ok(true);
    };
    if let Some(most) = number_key(key) {
        if is_within(text, most) {
            return Ok(false);
        }
        put_shown(out, pair)?;
        out.append(b" is out of its limits: the number is from 1 to ")?;
        put_decimal(out, most)?;
        return Ok(true);
    }
    if is_any(key, &FLAGS) && !is_any(text, &[b"1", b"true", b"0", b"false"]) {
        put_shown(out, pair)?;
        out.append(b" is no flag: write `1` or `true`, `0` or `false`")?;
        return Ok(true);
    }
    if is(key, b"hash") && !is(text, b"djb33x") {
        put_shown(out, pair)?;
        out.append(b" is not there: the one hash is `djb33x`")?;
        return Ok(true);
    }
    if is(key, b"name") && text.is_empty() {
        out.append(b"`name=` has no text: each cache has a name")?;
        return Ok(true);
    }
    Ok(false)
}

/// Says which value of a cache is bad.
pub fn put_bad_cache(out: &mut Bytes, value: &[u8]) -> Result<(), Memory> {
    for pair in value.split(|byte| *byte == b',') {
        if put_bad_pair(out, pair)? {
            return Ok(());
        }
    }
    put(
        out,
        &[
            b"there are ",
            MOST_CACHES,
            b" caches above, which is the most",
        ],
    )
}

/// Says which key of a cache is missing.
pub fn put_missing_key(out: &mut Bytes, value: &[u8]) -> Result<(), Memory> {
    for pair in value.split(|byte| *byte == b',') {
        let (key, _) = cut(pair, b'=');
        if is(key, b"name") {
            return out.append(b"the cache has no number of items: add `items=NUMBER`");
        }
    }
    out.append(b"the cache has no name: add `name=NAME`")
}

/// The value of a key of a cache; the last one counts.
pub fn value_of_key<'a>(value: &'a [u8], wanted: &[u8]) -> Option<&'a [u8]> {
    let mut found = None;
    for pair in value.split(|byte| *byte == b',') {
        let (key, text) = cut(pair, b'=');
        if is(key, wanted) {
            found = text;
        }
    }
    found
}
