// Spawners, listeners and binders, through their traits.
use std::alloc::{AllocError, Global};
use std::cell::Cell;
use std::rc::Rc;
use std::sync::{Arc, Mutex, Wait};
use std::test::Fail;
use std::thread;
use uw_outside::{
    Accepted, Binder, BytesIn, Job, JobSlot, LinkBinder, LinkList, Listener, NoSpawner, NotBound,
    NotStarted, Put, Sink, Source, Spawner, Texts, ThreadSpawner, fill, start_from,
};

#[derive(Drop)]
struct Quiet;

impl Job for Quiet {
    fn run(self) {}
}

#[test]
fn no_job_is_started(rt: HostRuntime) {
    let mut spawner = NoSpawner::new();
    assert_eq!(rt; spawner.start(Quiet), Err(NotStarted));
    assert_eq!(rt; spawner.start(Quiet), Err(NotStarted));
}

// So many empty texts.
fn board(alloc: Global, places: usize) -> Result<Arc<Mutex<Texts>>, AllocError> {
    let mut texts = Vec::new(alloc);
    for _ in 0..places {
        texts.push(Vec::new(alloc))?;
    }
    Ok(Arc::new(alloc, Mutex::new(texts))?)
}

// A connection for each text, whose other side sends it.
fn links<R: Wait + Drop>(
    rt: R,
    alloc: Global,
    texts: &[&[u8]],
    board: &Arc<Mutex<Texts>>,
) -> Result<LinkList<R>, AllocError> {
    let mut inputs = Vec::new(alloc);
    for text in texts {
        inputs.push(BytesIn::new(text.to_vec(alloc)?, Vec::new(alloc)))?;
    }
    Ok(LinkList::new(rt, inputs, Arc::try_clone(board)?))
}

// Waits for a connection, and sends back its first four bytes.
fn send_back<I: Source + Drop, O: Sink + Drop>(source: I, sink: O) -> Put {
    let (mut source, mut sink) = (source, sink);
    let mut buf = [0; 4];
    source.wait();
    let _ = fill(&mut source, &mut buf);
    sink.write(&buf)
}

// Accepts one connection and sends back: what the write answers, or `None` where no connection comes any more.
pub(crate) fn answer_one<L: Listener>(
    alloc: Global,
    listener: &mut L,
) -> Result<Option<Put>, AllocError> {
    match listener.accept(alloc) {
        Accepted::Link(source, sink) => Ok(Some(send_back(source, sink))),
        Accepted::Closed => Ok(None),
        Accepted::Failed => Err(AllocError),
    }
}

// Whether the board has just these texts.
fn has_texts(rt: &impl Wait, board: &Mutex<Texts>, want: &[&[u8]]) -> bool {
    let texts = board.lock(rt);
    texts.len() == want.len()
        && texts
            .iter()
            .zip(want)
            .all(|(text, want)| text.as_slice() == *want)
}

// The board has no text for the third connection.
#[test]
fn each_link_has_its_text(rt: HostRuntime) -> Result<(), Fail> {
    let alloc = rt.alloc();
    let board = board(alloc, 2)?;
    let mut list = links(&rt, alloc, &[b"abcd", b"efgh", b"ijkl"], &board)?;
    for want in [
        Some(Put::Count(4)),
        Some(Put::Count(4)),
        Some(Put::Failed),
        None,
        None,
    ] {
        assert_eq!(rt; answer_one(alloc, &mut list)?, want);
    }
    assert!(rt; has_texts(&rt, &board, &[b"abcd", b"efgh"]));
    Ok(())
}

// The last bind finds the list gone. A list with no connection left is not closed before it has said so.
#[test]
fn a_list_is_bound_once(rt: HostRuntime) -> Result<(), Fail> {
    let alloc = rt.alloc();
    let board = board(alloc, 1)?;
    let mut binder = LinkBinder::new(links(rt, alloc, &[b"abcd"], &board)?);
    let Ok(mut bound) = binder.bind(alloc, b"first") else {
        return Err(Fail::new("not bound"));
    };
    assert_eq!(rt; answer_one(alloc, &mut bound)?, Some(Put::Count(4)));
    assert!(rt; !binder.closed(&bound));
    assert_eq!(rt; answer_one(alloc, &mut bound)?, None);
    assert!(rt; binder.closed(&bound));
    assert_eq!(rt; binder.bind(alloc, b"first").err(), Some(NotBound));
    Ok(())
}

// Sends back on one connection after the other until none comes any more, and then counts itself.
#[derive(Drop)]
struct Worker<R: Wait> {
    rt: R,
    alloc: Global,
    list: Arc<Mutex<LinkList<R>>>,
    ended: Arc<Mutex<u32>>,
}

impl<R: Wait + Copy + Send + Drop> Job for Worker<R> {
    fn run(self) {
        let Worker {
            rt,
            alloc,
            list,
            ended,
        } = self;
        for _ in rt.forever() {
            match list.lock(&rt).accept(alloc) {
                Accepted::Link(source, sink) => {
                    let _ = send_back(source, sink);
                }
                Accepted::Closed | Accepted::Failed => break,
            }
        }
        let mut ended = ended.lock(&rt);
        *ended = ended.wrapping_add(1);
    }
}

#[test]
fn two_threads_serve_one_list(rt: HostRuntime) -> Result<(), Fail> {
    let alloc = rt.alloc();
    let board = board(alloc, 3)?;
    let list = links(rt, alloc, &[b"abcd", b"efgh", b"ijkl"], &board)?;
    let list = Arc::new(alloc, Mutex::new(list))?;
    let ended = Arc::new(alloc, Mutex::new(0))?;
    let slot: JobSlot<Worker<HostRuntime>> = Rc::new(alloc, Cell::new(None))?;
    let jobs = slot.clone()?;
    let begin: Box<dyn Fn() -> bool> = Box::new(alloc, move || start_from(&rt, &jobs))?;
    let mut spawner = ThreadSpawner::new(slot, begin);
    for _ in 0..2 {
        let worker = Worker {
            rt,
            alloc,
            list: Arc::try_clone(&list)?,
            ended: Arc::try_clone(&ended)?,
        };
        assert_eq!(rt; spawner.start(worker), Ok(()));
    }
    for _ in rt.forever() {
        if *ended.lock(&rt) == 2 {
            break;
        }
        thread::yield_now();
    }
    assert!(rt; has_texts(&rt, &board, &[b"abcd", b"efgh", b"ijkl"]));
    Ok(())
}

#[test]
fn a_job_that_no_thread_takes_is_refused(rt: HostRuntime) -> Result<(), Fail> {
    let alloc = rt.alloc();
    let slot: JobSlot<Quiet> = Rc::new(alloc, Cell::new(None))?;
    let begin: Box<dyn Fn() -> bool> = Box::new(alloc, || false)?;
    let mut spawner = ThreadSpawner::new(slot, begin);
    assert_eq!(rt; spawner.start(Quiet), Err(NotStarted));
    assert_eq!(rt; spawner.refused, 1);
    Ok(())
}
