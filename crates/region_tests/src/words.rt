// Words, refused words and planned words.
use std::alloc::{AllocError, Global};
use std::test::Fail;
use uw_outside::{Died, Fuse, Immortal, Life};
use uw_words::{Overlay, Ram, Shape, first_word};

fn words_of(alloc: Global, ram: &Ram) -> Result<Vec<u64>, AllocError> {
    let mut words = Vec::new(alloc);
    for at in 0..ram.len() {
        words.push(ram.load(at))?;
    }
    Ok(words)
}

// What is read at each place of the region.
fn read_of(alloc: Global, overlay: &Overlay, ram: &Ram) -> Result<Vec<u64>, AllocError> {
    let mut words = Vec::new(alloc);
    for at in 0..ram.len() {
        words.push(overlay.load(ram, at))?;
    }
    Ok(words)
}

fn writes_of(alloc: Global, overlay: &Overlay) -> Result<Vec<(u64, u64)>, AllocError> {
    let mut writes = Vec::new(alloc);
    for k in 0..overlay.count() {
        writes.push(overlay.nth(k))?;
    }
    Ok(writes)
}

// Puts the words that there is room for.
fn put_all(overlay: &mut Overlay, writes: &[(u64, u64)]) {
    for (at, word) in writes {
        if overlay.spare() > 0 {
            overlay.put(*at, *word);
        }
    }
}

// Stores words at places of the region, and says which were stored.
fn store_all<L: Life>(
    alloc: Global,
    ram: &mut Ram,
    writes: &[(u64, u64)],
    life: &mut L,
) -> Result<Vec<bool>, AllocError> {
    let mut stored = Vec::new(alloc);
    for (at, word) in writes {
        if *at < ram.len() {
            stored.push(ram.store(*at, *word, life) != Err(Died))?;
        }
    }
    Ok(stored)
}

#[test]
fn a_refused_store_changes_nothing(rt: HostRuntime) -> Result<(), Fail> {
    let alloc = rt.alloc();
    let mut ram = Ram::new(alloc, 4)?;
    let mut fuse = Fuse::new([3].to_vec(alloc)?);
    let writes = [(1, 7), (1, 8), (2, 9), (3, 9)];
    let stored = store_all(alloc, &mut ram, &writes, &mut fuse)?;
    assert_eq!(rt; stored.as_slice(), [true, true, false, false].as_slice());
    assert_eq!(rt; words_of(alloc, &ram)?.as_slice(), [0, 8, 0, 0].as_slice());
    let stored = store_all(alloc, &mut ram, &[(3, 5)], &mut Immortal::new())?;
    assert_eq!(rt; stored.as_slice(), [true].as_slice());
    assert_eq!(rt; words_of(alloc, &ram)?.as_slice(), [0, 8, 0, 5].as_slice());
    Ok(())
}

#[test]
fn planned_words_are_read_in_place_of_the_region(rt: HostRuntime) -> Result<(), Fail> {
    let alloc = rt.alloc();
    let mut ram = Ram::new(alloc, 6)?;
    store_all(alloc, &mut ram, &[(0, 9), (5, 9)], &mut Immortal::new())?;
    let mut overlay = Overlay::new(alloc, 4)?;
    put_all(&mut overlay, &[(5, 1), (2, 2), (5, 3)]);
    assert_eq!(rt; overlay.spare(), 2);
    assert_eq!(rt;
        writes_of(alloc, &overlay)?.as_slice(),
        [(5, 3), (2, 2)].as_slice()
    );
    let read = read_of(alloc, &overlay, &ram)?;
    assert_eq!(rt; read.as_slice(), [9, 0, 2, 0, 0, 3].as_slice());
    overlay.clear();
    put_all(&mut overlay, &[(2, 4)]);
    assert_eq!(rt; writes_of(alloc, &overlay)?.as_slice(), [(2, 4)].as_slice());
    let read = read_of(alloc, &overlay, &ram)?;
    assert_eq!(rt; read.as_slice(), [9, 0, 4, 0, 0, 9].as_slice());
    Ok(())
}

// Twice as many as the slots that an overlay begins with, put in two orders.
#[test]
fn no_place_is_forgotten_after_many(rt: HostRuntime) -> Result<(), Fail> {
    let alloc = rt.alloc();
    let ram = Ram::new(alloc, 1000)?;
    let mut overlay = Overlay::new(alloc, 1000)?;
    for k in 0..256u64 {
        put_all(&mut overlay, &[(k * 389 % 1000, k)]);
    }
    for k in 0..256u64 {
        put_all(&mut overlay, &[(k * 389 % 1000, 1000 - k)]);
    }
    assert_eq!(rt; overlay.count(), 256);
    for (k, write) in writes_of(alloc, &overlay)?.iter().enumerate() {
        let k = k as u64;
        if k < 256 {
            let at = k * 389 % 1000;
            assert_eq!(rt; *write, (at, 1000 - k));
            if at < ram.len() {
                assert_eq!(rt; overlay.load(&ram, at), 1000 - k);
            }
        }
    }
    Ok(())
}

#[test]
fn a_shape_has_links_and_is_compared_by_its_places(rt: HostRuntime) {
    let shape = Shape {
        head: 0,
        bitmap: 16,
        chains: 17,
        items: 21,
        stride: 9,
        blocks: 57,
        intent: 89,
        room: 400,
        n_items: 4,
        n_blocks: 4,
        n_chains: 4,
        key_words: 1,
        block_words: 8,
    };
    assert_eq!(rt; shape.link_of(0), 21);
    assert_eq!(rt; shape.link_of(3), 48);
    assert_eq!(rt; shape.item_of(shape.link_of(3)), Some(3));
    assert_eq!(rt; shape.item_of(0), None);
    let mut other = shape;
    assert_eq!(rt; shape, other);
    other.stride = 8;
    assert_ne!(rt; shape, other);
}

#[test]
fn eight_bytes_are_a_word(rt: HostRuntime) {
    let texts: [(&[u8], u64); 5] = [
        (b"", 0),
        (b"a", 97),
        (b"ab", 97 + 98 * 256),
        (b"\x01\x02\x03\x04\x05\x06\x07\x80", 0x8007_0605_0403_0201),
        (
            b"\x01\x02\x03\x04\x05\x06\x07\x80\xff",
            0x8007_0605_0403_0201,
        ),
    ];
    for (text, word) in texts {
        assert_eq!(rt; first_word(text), word, "{text:?}");
    }
}
