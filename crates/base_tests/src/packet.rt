// Packets as they come from a source, and blocks, by worked examples.
use std::alloc::{AllocError, Global};
use std::test::Fail;
use uw_base::{Bytes, Vars};
use uw_outside::BytesIn;
use uw_packet::{
    PacketFault, read_array, read_block, read_packet, read_vars, skip_body, write_vars,
};

// A request as nginx sends it.
const REQUEST: &[u8] =
    b"\x00\x38\x01\x00\x0c\x00QUERY_STRING\x03\x00a=1\x0e\x00REQUEST_METHOD\x03\x00GET\x0c\x00CONTENT_TYPE\x00\x00\x0e\x00CONTENT_LENGTH\x00\x00\x0b\x00REQUEST_URI\n\x00/hello?a=1\t\x00PATH_INFO\x06\x00/hello\r\x00DOCUMENT_ROOT\x15\x00/usr/share/nginx/html\x0f\x00SERVER_PROTOCOL\x08\x00HTTP/1.1\x0e\x00REQUEST_SCHEME\x04\x00http\x0b\x00REMOTE_ADDR\t\x00127.0.0.1\x0b\x00REMOTE_PORT\x05\x0040000\x0b\x00SERVER_PORT\x02\x0080\x0b\x00SERVER_NAME\t\x00localhost\t\x00HTTP_HOST\t\x00localhost";

// The source of these bytes, of which the listed reads fail.
fn source(alloc: Global, bytes: &[u8], fails: &[u64]) -> Result<BytesIn, AllocError> {
    Ok(BytesIn::new(bytes.to_vec(alloc)?, fails.to_vec(alloc)?))
}

// Reads packets until there is none or one is refused: their blocks, and the refusal.
fn read_all(
    alloc: Global,
    src: &mut BytesIn,
    limit: u32,
) -> Result<(Vec<Bytes>, Option<PacketFault>), AllocError> {
    let mut blocks = Vec::new(alloc);
    for _ in 0..9 {
        match read_packet(alloc, src, limit) {
            Ok(Some(packet)) => blocks.push(packet.block)?,
            Ok(None) => return Ok((blocks, None)),
            Err(fault) => return Ok((blocks, Some(fault))),
        }
    }
    Ok((blocks, None))
}

// In each row: the bytes, the reads that fail, how many packets come, and the refusal of the next.
#[test]
fn packets_come_one_after_the_other(rt: HostRuntime) -> Result<(), Fail> {
    let cut = |got, want| Some(PacketFault::Truncated { got, want });
    let rows: [(&[u8], &[u64], usize, Option<PacketFault>); 9] = [
        (b"", &[], 0, None),
        (b"o\x06\0\x01\x01\0k\x01\0vo\x01\0\0k", &[], 2, None),
        (b"o\x06\0\x01\x01\0k\x01\0vo\x05\0\0abc", &[], 1, cut(3, 5)),
        (b"o\x06\0\x01", &[], 0, cut(0, 6)),
        (
            b"o\x01\x10\0",
            &[],
            0,
            Some(PacketFault::TooBig {
                size: 4097,
                limit: 4096,
            }),
        ),
        (b"o\0\0\0", &[], 1, None),
        (b"o\x01\0\0k", &[1], 0, Some(PacketFault::ReadFault)),
        (b"o\x01\0\0k", &[2], 0, Some(PacketFault::ReadFault)),
        (
            b"o\x01\0\0ko\x01\0\0k",
            &[3],
            1,
            Some(PacketFault::ReadFault),
        ),
    ];
    for (bytes, fails, count, fault) in rows {
        let mut src = source(rt.alloc(), bytes, fails)?;
        let (blocks, refused) = read_all(rt.alloc(), &mut src, 4096)?;
        assert_eq!(rt;
            (blocks.len(), refused),
            (count, fault),
            "{bytes:?} {fails:?}"
        );
    }
    Ok(())
}

// A read that failed inside a block has lost the header: the next call begins in the block.
#[test]
fn reading_goes_on_behind_a_failed_read(rt: HostRuntime) -> Result<(), Fail> {
    let mut src = source(rt.alloc(), b"o\x04\0\0\x11\0\0\0", &[2])?;
    let failed = read_packet(rt.alloc(), &mut src, 4096);
    assert!(rt; matches!(failed, Err(PacketFault::ReadFault)));
    match read_packet(rt.alloc(), &mut src, 4096) {
        Ok(Some(packet)) => assert_eq!(rt; (packet.head.m1, packet.block.len()), (17, 0)),
        _ => panic!(rt; "the block is read as a header"),
    }
    Ok(())
}

#[test]
fn the_largest_blocks_are_read(rt: HostRuntime) -> Result<(), Fail> {
    let rows = [
        (65532, Ok(32766 / 2)),
        (65533, Err(PacketFault::BadBlock { at: 65532 })),
        (65535, Err(PacketFault::BadBlock { at: 65534 })),
    ];
    for (size, want) in rows {
        let zeros = vec![in rt.alloc(); 0u8; 65535]?;
        let mut src = source(rt.alloc(), zeros.as_slice(), &[])?;
        match read_block(rt.alloc(), &mut src, size) {
            Ok(block) => {
                assert_eq!(rt; block.len(), usize::from(size));
                let pairs = read_vars(rt.alloc(), block.as_slice()).map(|vars| vars.len());
                assert_eq!(rt; pairs, want, "{size}");
            }
            Err(fault) => panic!(rt; "{fault:?} at {size}"),
        }
    }
    Ok(())
}

#[test]
fn a_request_has_its_variables(rt: HostRuntime) -> Result<(), Fail> {
    let mut src = source(rt.alloc(), REQUEST, &[])?;
    let (blocks, refused) = read_all(rt.alloc(), &mut src, 4096)?;
    assert_eq!(rt; (blocks.len(), refused), (1, None));
    for block in &blocks {
        assert_eq!(rt; block.len(), 312);
        match read_vars(rt.alloc(), block.as_slice()) {
            Ok(vars) => {
                assert_eq!(rt; vars.len(), 14);
                assert_eq!(rt; vars.get(b"PATH_INFO"), b"/hello".as_slice());
                assert_eq!(rt; vars.get(b"CONTENT_LENGTH"), b"".as_slice());
                assert_eq!(rt; vars.get(b"HTTP_HOST"), b"localhost".as_slice());
                let written = write_vars(rt.alloc(), &vars)?.ok_or("the block is short")?;
                assert_eq!(rt; written.as_slice(), block.as_slice());
            }
            Err(fault) => panic!(rt; "{fault:?}"),
        }
    }
    Ok(())
}

// In each row: the block, the number of its texts, and the number of its pairs, or where each is refused.
#[test]
fn blocks_out_of_their_grammar_are_refused_at_their_place(rt: HostRuntime) -> Result<(), Fail> {
    let bad = |at| Err(PacketFault::BadBlock { at });
    let rows: [(
        &[u8],
        Result<usize, PacketFault>,
        Result<usize, PacketFault>,
    ); 11] = [
        (b"", Ok(0), Ok(0)),
        (b"\0\0\0\0", Ok(2), Ok(1)),
        (b"\x01\0k\x01\0v", Ok(2), Ok(1)),
        (b"\x01\0A\x02\0B", bad(3), bad(3)),
        (b"\x01\0A", Ok(1), bad(3)),
        (b"\x01\0A\x01\0B\x01\0C", Ok(3), bad(9)),
        (b"\x01", bad(0), bad(0)),
        (b"\x01\0", bad(0), bad(0)),
        (b"\x01\0A\x01", bad(3), bad(3)),
        (b"\0\x01a", bad(0), bad(0)),
        (b"\x01\0k\x01\0v\xff\xff", bad(6), bad(6)),
    ];
    for (block, texts, pairs) in rows {
        let read = read_array(rt.alloc(), block).map(|found| found.len());
        assert_eq!(rt; read, texts, "{block:?}");
        let read = read_vars(rt.alloc(), block).map(|found| found.len());
        assert_eq!(rt; read, pairs, "{block:?}");
    }
    Ok(())
}

#[test]
fn a_vars_block_is_written_up_to_65535_bytes(rt: HostRuntime) -> Result<(), Fail> {
    // With a key of one byte the block has five bytes more than the value.
    let rows = [
        (0, Some(5)),
        (65530, Some(65535)),
        (65531, None),
        (65536, None),
    ];
    for (size, want) in rows {
        let value = vec![in rt.alloc(); b'v'; size]?;
        let mut vars = Vars::new(rt.alloc());
        vars.set(b"k", value.as_slice())?;
        let written = write_vars(rt.alloc(), &vars)?;
        assert_eq!(rt; written.map(|block| block.len()), want, "{size}");
    }
    Ok(())
}

// In each row: the length of the body, the bytes of the source, the reads that fail, and the answer.
#[test]
fn a_body_is_taken_whole(rt: HostRuntime) -> Result<(), Fail> {
    let cut = |got, want| Err(PacketFault::Truncated { got, want });
    let rows: [(u64, usize, &[u64], Result<(), PacketFault>); 6] = [
        (0, 0, &[1], Ok(())),
        (2, 3, &[], Ok(())),
        (2, 1, &[], cut(1, 2)),
        (10000, 10000, &[], Ok(())),
        (10000, 9999, &[], cut(9999, 10000)),
        (10000, 10000, &[2], Err(PacketFault::ReadFault)),
    ];
    for (len, count, fails, want) in rows {
        let body = vec![in rt.alloc(); b'b'; count]?;
        let mut src = source(rt.alloc(), body.as_slice(), fails)?;
        assert_eq!(rt; skip_body(&mut src, len), want, "{len} of {count}");
    }
    Ok(())
}
