// The binder over sockets of the system, with clients of the test's own.
use crate::links::answer_one;
use std::alloc::Global;
use std::fs;
use std::io::{Read, Write};
use std::net::TcpStream;
use std::os::unix::net::UnixStream;
use std::test::Fail;
use uw_outside::{Binder, Listener, NotBound, Put, SocketBinder};

// Whether four bytes of the client come back to it.
fn come_back<L: Listener, S: Read + Write + Drop>(
    alloc: Global,
    listener: &mut L,
    client: S,
) -> Result<bool, Fail> {
    let mut client = client;
    client.write_all(b"abcd")?;
    let answer = answer_one(alloc, listener)?;
    let mut buf = [0; 4];
    client.read_exact(&mut buf)?;
    Ok(answer == Some(Put::Count(4)) && buf == *b"abcd")
}

// A path at which a listener lives is refused. One that a listener left is taken over, and a file stays as it is.
#[test]
fn a_path_that_was_left_is_bound_again(rt: HostRuntime) -> Result<(), Fail> {
    let alloc = rt.alloc();
    let mut binder = SocketBinder::new(rt);
    for _ in 0..2 {
        let Ok(mut bound) = binder.bind(alloc, b"site.socket") else {
            return Err(Fail::new("not bound"));
        };
        let client = UnixStream::connect(&rt, "site.socket")?;
        assert!(rt; come_back(alloc, &mut bound, client)?);
        assert_eq!(rt; binder.bind(alloc, b"site.socket").err(), Some(NotBound));
        assert!(rt; !binder.closed(&bound));
    }
    fs::write(&rt, "file", b"kept")?;
    assert_eq!(rt; binder.bind(alloc, b"file").err(), Some(NotBound));
    assert_eq!(rt; fs::read(&rt, "file")?.as_slice(), b"kept".as_slice());
    Ok(())
}

// Other programs may have a port: one of twenty is free.
#[test]
fn a_text_with_a_colon_is_an_address(rt: HostRuntime) -> Result<(), Fail> {
    let alloc = rt.alloc();
    let mut binder = SocketBinder::new(rt);
    for port in 38_400..38_420u16 {
        let text = format!(in alloc; ":{port}")?;
        if let Ok(mut bound) = binder.bind(alloc, text.as_bytes()) {
            let client = TcpStream::connect(&rt, ("127.0.0.1", port))?;
            assert!(rt; come_back(alloc, &mut bound, client)?);
            return Ok(());
        }
    }
    Err(Fail::new("no port is free"))
}

#[test]
fn what_is_no_address_is_refused(rt: HostRuntime) {
    let mut binder = SocketBinder::new(rt);
    let texts: [&[u8]; 6] = [b"", b":", b":x", b":65536", b"127.0.0.1:", b"\xFF"];
    for text in texts {
        let bound = binder.bind(rt.alloc(), text);
        assert_eq!(rt; bound.err(), Some(NotBound), "{text:?}");
    }
}
