// Replies by worked examples, made by hand from the form of HTTP/1.1.
use std::alloc::Global;
use std::test::Fail;
use uw_base::{Bytes, BytesList, Memory};
use uw_reply::{Reply, reply_bytes};

// A reply's status, its header lines and its body; whether only the head is asked for; its bytes.
type Row = (
    &'static [u8],
    &'static [&'static [u8]],
    &'static [u8],
    bool,
    &'static [u8],
);

const ROWS: &[Row] = &[
    // a text that a rule sends
    (
        b"200 OK",
        &[],
        b"hello a=1",
        false,
        b"HTTP/1.1 200 OK\r\nContent-Length: 9\r\n\r\nhello a=1",
    ),
    // the page of a request that no rule answers, whole and its head alone
    (
        b"404 Not Found",
        &[b"Content-Type: text/plain"],
        b"404 Not Found\n",
        false,
        b"HTTP/1.1 404 Not Found\r\nContent-Type: text/plain\r\nContent-Length: 14\r\n\r\n404 Not Found\n",
    ),
    (
        b"404 Not Found",
        &[b"Content-Type: text/plain"],
        b"404 Not Found\n",
        true,
        b"HTTP/1.1 404 Not Found\r\nContent-Type: text/plain\r\nContent-Length: 14\r\n\r\n",
    ),
    // header lines in their order; a body of no bytes
    (
        b"200 OK",
        &[b"X-Via: uw", b"Content-Type: text/plain"],
        b"v",
        false,
        b"HTTP/1.1 200 OK\r\nX-Via: uw\r\nContent-Type: text/plain\r\nContent-Length: 1\r\n\r\nv",
    ),
    (
        b"404 Not Found",
        &[b"X-Via: uw"],
        b"",
        false,
        b"HTTP/1.1 404 Not Found\r\nX-Via: uw\r\nContent-Length: 0\r\n\r\n",
    ),
    // a length of two digits, and bytes in a body that lines may not hold
    (
        b"200 OK",
        &[],
        b"784111777 Sun, 06 Nov 1994 08:49:37 GMT Zm9vYmFy a b",
        false,
        b"HTTP/1.1 200 OK\r\nContent-Length: 52\r\n\r\n784111777 Sun, 06 Nov 1994 08:49:37 GMT Zm9vYmFy a b",
    ),
    (
        b"200 OK",
        &[],
        b"a\r\n\0b",
        false,
        b"HTTP/1.1 200 OK\r\nContent-Length: 5\r\n\r\na\r\n\0b",
    ),
    // statuses without a body
    (
        b"100 Continue",
        &[],
        b"body",
        false,
        b"HTTP/1.1 100 Continue\r\n\r\n",
    ),
    (
        b"204 No Content",
        &[b"A: b"],
        b"body",
        false,
        b"HTTP/1.1 204 No Content\r\nA: b\r\n\r\n",
    ),
    (
        b"304 Not Modified",
        &[],
        b"body",
        true,
        b"HTTP/1.1 304 Not Modified\r\n\r\n",
    ),
    // a status counts as it is written out
    (
        b"\n2\x0004 No\r Content",
        &[],
        b"body",
        false,
        b"HTTP/1.1 204 No Content\r\n\r\n",
    ),
    (
        b" 204",
        &[],
        b"body",
        false,
        b"HTTP/1.1  204\r\nContent-Length: 4\r\n\r\nbody",
    ),
    (
        b"20",
        &[],
        b"body",
        false,
        b"HTTP/1.1 20\r\nContent-Length: 4\r\n\r\nbody",
    ),
    (
        b"",
        &[],
        b"",
        false,
        b"HTTP/1.1 \r\nContent-Length: 0\r\n\r\n",
    ),
    // lines that try to end early
    (
        b"200 OK\r\nX: y",
        &[b"Location: /a\r\nSet-Cookie: b\0\n\r\n", b"", b"\n"],
        b"",
        false,
        b"HTTP/1.1 200 OKX: y\r\nLocation: /aSet-Cookie: b\r\n\r\n\r\nContent-Length: 0\r\n\r\n",
    ),
];

// A reply of these texts.
fn reply(
    alloc: Global,
    status: &[u8],
    headers: &[&[u8]],
    body: &[u8],
    closed: bool,
) -> Result<Reply, Memory> {
    let mut list = BytesList::new(alloc);
    for header in headers {
        list.push(Bytes::from_slice(alloc, header)?)?;
    }
    Ok(Reply {
        status: Bytes::from_slice(alloc, status)?,
        headers: list,
        body: Bytes::from_slice(alloc, body)?,
        closed,
    })
}

// A reply that was closed has no bytes.
#[test]
fn replies_are_written_out(rt: HostRuntime) -> Result<(), Fail> {
    for (status, headers, body, head_only, want) in ROWS {
        for closed in [false, true] {
            let reply = reply(rt.alloc(), status, headers, body, closed)?;
            let bytes = reply_bytes(rt.alloc(), &reply, *head_only)?;
            let want = if closed { b"" } else { *want };
            assert_eq!(rt; bytes.as_slice(), want, "{status:?}");
        }
    }
    Ok(())
}
