// Numbers, the hash, variables and lists, by examples from outside.
use std::test::Fail;
use uw_base::{
    Bytes, BytesList, Memory, NumberList, Vars, djb33x, put_decimal, put_signed, read_decimal,
    read_signed,
};

#[test]
fn texts_of_1_to_20_digits_are_read_as_numbers_below_2_to_the_64(rt: HostRuntime) {
    let rows: [(&[u8], Option<u64>); 14] = [
        (b"0", Some(0)),
        (b"7", Some(7)),
        (b"0042", Some(42)),
        (b"18446744073709551615", Some(u64::MAX)),
        (b"00000000000000000001", Some(1)),
        (b"18446744073709551616", None),
        (b"99999999999999999999", None),
        (b"000000000000000000001", None),
        (b"100000000000000000000", None),
        (b"", None),
        (b"+1", None),
        (b"1a", None),
        (b" 1", None),
        (b"/", None),
    ];
    for (text, want) in rows {
        assert_eq!(rt; read_decimal(text), want, "{text:?}");
    }
}

#[test]
fn texts_of_1_to_19_digits_are_read_with_their_sign(rt: HostRuntime) {
    let rows: [(&[u8], Option<i64>); 12] = [
        (b"0", Some(0)),
        (b"-0", Some(0)),
        (b"-15", Some(-15)),
        (b"9223372036854775807", Some(i64::MAX)),
        (b"-9223372036854775808", Some(i64::MIN)),
        (b"9223372036854775808", None),
        (b"-9223372036854775809", None),
        (b"00000000000000000000", None),
        (b"-", None),
        (b"--1", None),
        (b"+1", None),
        (b"", None),
    ];
    for (text, want) in rows {
        assert_eq!(rt; read_signed(text), want, "{text:?}");
    }
}

#[test]
fn numbers_are_put_without_leading_zeros(rt: HostRuntime) -> Result<(), Fail> {
    let numbers: [(u64, &[u8]); 3] = [
        (0, b"n=0"),
        (1000, b"n=1000"),
        (u64::MAX, b"n=18446744073709551615"),
    ];
    for (number, want) in numbers {
        let mut out = Bytes::from_slice(rt.alloc(), b"n=")?;
        put_decimal(&mut out, number)?;
        assert_eq!(rt; out.as_slice(), want, "{number}");
    }
    let signed: [(i64, &[u8]); 4] = [
        (0, b"n=0"),
        (12, b"n=12"),
        (-12, b"n=-12"),
        (i64::MIN, b"n=-9223372036854775808"),
    ];
    for (number, want) in signed {
        let mut out = Bytes::from_slice(rt.alloc(), b"n=")?;
        put_signed(&mut out, number)?;
        assert_eq!(rt; out.as_slice(), want, "{number}");
    }
    Ok(())
}

// The first two are those of the documentation's hash, the others by another program.
#[test]
fn keys_have_their_hashes(rt: HostRuntime) {
    let rows: [(&[u8], u64); 6] = [
        (b"", 5381),
        (b"a", 177604),
        (b"ab", 5860902),
        (b"hello", 178056679),
        (b"the quick brown fox", 225162702),
        (b"\xff\x00", 5857434),
    ];
    for (key, want) in rows {
        assert_eq!(rt; djb33x(key), want, "{key:?}");
    }
}

#[test]
fn the_last_pair_of_a_key_counts(rt: HostRuntime) -> Result<(), Fail> {
    let mut vars = Vars::with_room(rt.alloc(), 1, 2)?;
    vars.set(b"a", b"1")?;
    vars.set(b"b", b"2")?;
    assert_eq!(rt; vars.get(b"a"), b"1".as_slice());
    vars.set(b"a", b"3")?;
    vars.set(b"c", b"")?;
    let rows: [(&[u8], &[u8]); 5] = [
        (b"a", b"3"),
        (b"b", b"2"),
        (b"c", b""),
        (b"d", b""),
        (b"", b""),
    ];
    for (key, want) in rows {
        assert_eq!(rt; vars.get(key), want, "{key:?}");
    }
    assert!(rt; vars.len() == 4);
    assert_eq!(rt; vars.pair(2), (b"a".as_slice(), b"3".as_slice()));
    assert_eq!(rt; Vars::new(rt.alloc()).len(), 0);
    Ok(())
}

#[test]
fn bytes_and_lists_hold_what_was_put_in(rt: HostRuntime) -> Result<(), Fail> {
    let mut text = Bytes::new(rt.alloc());
    text.append(b"ab")?;
    text.push(b'c')?;
    assert_eq!(rt; text.len(), 3);
    assert_eq!(rt; text.into_vec().as_slice(), b"abc".as_slice());

    let mut texts = BytesList::new(rt.alloc());
    texts.push(Bytes::from_vec(b"x".to_vec(rt.alloc())?))?;
    assert_eq!(rt; texts.len(), 1);
    let again = BytesList::from_vec(texts.into_vec());
    for text in again.as_slice() {
        assert_eq!(rt; text.as_slice(), b"x".as_slice());
    }

    let mut numbers = NumberList::new(rt.alloc());
    numbers.push(7)?;
    assert_eq!(rt; numbers.as_slice(), [7].as_slice());
    let more = NumberList::from_vec([8, 9].to_vec(rt.alloc())?);
    assert_eq!(rt; more.as_slice(), [8, 9].as_slice());
    assert_eq!(rt; Memory, Memory);
    Ok(())
}
