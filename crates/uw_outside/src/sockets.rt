// Listeners, connections and a binder over sockets of the system. What comes over them, no contract can say.
ghost use Rattle.std.specs.Prelude.{◌≡◌, ℕ, None, false};

use crate::binder::{Binder, NotBound};
use crate::counts::count_fault;
use crate::listener::{Accepted, Listener};
use crate::real::{Reading, Writing};
use std::alloc::Global;
use std::fs::{self, Files};
use std::io::{self, ErrorKind, Read, Write};
use std::marker::Model;
use std::net::{Net, TcpListener, TcpStream};
use std::os::unix::fs::FileTypeExt;
use std::os::unix::net::{UnixListener, UnixStream};
use std::rt::Clock;
use std::sync::Arc;
use std::time::Duration;
use std::{str, thread};

// How many bytes are read ahead of a connection.
const AHEAD_BYTES: usize = 4_096;

// For how long a read waits for the other side, in seconds.
const SILENCE: u64 = 4;

// For how long an accept that failed rests, in milliseconds: else a lack of descriptors would keep it busy.
const REST: u64 = 10;

#[derive(Drop)]
enum Stream {
    Tcp(TcpStream),
    Unix(UnixStream),
}

impl Stream {
    // Lets no read wait longer than the silence that is borne.
    fn with_limit(self) -> io::Result<Stream> {
        let most = Some(Duration::from_secs(SILENCE));
        match &self {
            Stream::Tcp(stream) => stream.set_read_timeout(most)?,
            Stream::Unix(stream) => stream.set_read_timeout(most)?,
        }
        Ok(self)
    }
}

/// One end of a connection. Both ends share its stream, which is closed as soon as both are dropped. A read to which
/// the other side says nothing for four seconds fails.
#[derive(Drop)]
pub struct SocketEnd {
    stream: Arc<Stream>,
}

impl Read for SocketEnd {
    fn read(&mut self, buf: &mut [u8]) -> io::Result<usize> {
        match &*self.stream {
            Stream::Tcp(stream) => (&mut &*stream).read(buf),
            Stream::Unix(stream) => (&mut &*stream).read(buf),
        }
    }
}

impl Write for SocketEnd {
    fn write(&mut self, buf: &[u8]) -> io::Result<usize> {
        match &*self.stream {
            Stream::Tcp(stream) => (&mut &*stream).write(buf),
            Stream::Unix(stream) => (&mut &*stream).write(buf),
        }
    }

    fn flush(&mut self) -> io::Result<()> {
        Ok(())
    }
}

#[derive(Drop)]
enum Socket {
    Tcp(TcpListener),
    Unix(UnixListener),
}

impl Socket {
    fn accept(&self) -> io::Result<Stream> {
        let stream = match self {
            Socket::Tcp(listener) => Stream::Tcp(listener.accept()?.0),
            Socket::Unix(listener) => Stream::Unix(listener.accept()?.0),
        };
        stream.with_limit()
    }

    // The two ends of the next connection.
    fn link(&self, alloc: Global) -> io::Result<(Reading<SocketEnd>, Writing<SocketEnd>)> {
        let stream = Arc::new(alloc, self.accept()?)?;
        let other = Arc::try_clone(&stream)?;
        let source = Reading::ahead(alloc, AHEAD_BYTES, SocketEnd { stream })?;
        Ok((source, Writing::new(SocketEnd { stream: other })))
    }
}

/// A listener over a socket of the system. It never answers the close, and doesn't tell how many connections are left.
/// Contracts see it as the count of its failed accepts.
#[derive(Drop)]
pub struct SocketListener<R> {
    rt: R,
    socket: Socket,
    faults: u64,
}

impl<R> Model for SocketListener<R> {
    ghost use Rattle.std.specs.Prelude.{ℕ};

    ghost Value = { ℕ };

    ghost view = { λ l. l.faults };
}

impl<R: Clock> Listener for SocketListener<R> {
    type In = Reading<SocketEnd>;

    type Out = Writing<SocketEnd>;

    ghost left = { λ _. None };

    ghost closed = { λ _. false };

    ghost faults = { λ faults. faults };

    fn accept(&mut self, alloc: Global) -> Accepted<Reading<SocketEnd>, Writing<SocketEnd>> {
        match self.socket.link(alloc) {
            Ok((source, sink)) => Accepted::Link(source, sink),
            Err(_) => {
                count_fault(&mut self.faults);
                thread::sleep(&self.rt, Duration::from_millis(REST));
                Accepted::Failed
            }
        }
    }
}

/// Binds sockets of the system: a text with a `:` is a host and a port, where no host stands for every address of this
/// machine, and every other text is the path of a Unix socket. A path at which a socket was left to which nobody
/// listens any more is taken over.
#[derive(Drop)]
pub struct SocketBinder<R> {
    rt: R,
    faults: u64,
    closings: u64,
}

impl<R> Model for SocketBinder<R> {
    ghost use Rattle.uw_outside.specs.Adapters.{Bindings};

    ghost Value = { Bindings };

    ghost view = { λ b. record { faults = b.faults; closings = b.closings } };
}

impl<R> SocketBinder<R> {
    /// Takes no memory.
    pub fn new(rt: R) -> SocketBinder<R>
        ensures { result ≡ record { faults = 0; closings = 0 } }
    {
        SocketBinder {
            rt,
            faults: 0,
            closings: 0,
        }
    }
}

impl<R> Binder for SocketBinder<R>
where
    R: Net<Listener = TcpListener, Stream = TcpStream>
        + Files
        + Clock
        + Copy
        + Send
        + Drop
        + 'static,
{
    type Bound = SocketListener<R>;

    ghost faults = { λ b. b.faults };

    ghost closings = { λ b. b.closings };

    fn bind(&mut self, _alloc: Global, socket: &[u8]) -> Result<SocketListener<R>, NotBound> {
        match listen(&self.rt, socket) {
            Ok(socket) => Ok(SocketListener {
                rt: self.rt,
                socket,
                faults: 0,
            }),
            Err(_) => {
                count_fault(&mut self.faults);
                Err(NotBound)
            }
        }
    }

    // A listener over sockets never answers the close.
    fn closed(&mut self, _bound: &SocketListener<R>) -> bool {
        false
    }
}

fn listen<R>(rt: &R, socket: &[u8]) -> io::Result<Socket>
where
    R: Net<Listener = TcpListener, Stream = TcpStream> + Files,
{
    let Ok(text) = str::from_utf8(socket) else {
        return Err(io::Error::from(ErrorKind::InvalidInput));
    };
    match text.rsplit_once(':') {
        Some(("", port)) => match port.parse::<u16>() {
            Ok(port) => Ok(Socket::Tcp(TcpListener::bind(rt, ("0.0.0.0", port))?)),
            Err(_) => Err(io::Error::from(ErrorKind::InvalidInput)),
        },
        Some(_) => Ok(Socket::Tcp(TcpListener::bind(rt, text)?)),
        // The system would choose a name that nobody knows.
        None if text.is_empty() => Err(io::Error::from(ErrorKind::InvalidInput)),
        None => {
            if is_left(rt, text) {
                fs::remove_file(rt, text)?;
            }
            Ok(Socket::Unix(UnixListener::bind(rt, text)?))
        }
    }
}

// Whether a socket to which nobody listens stands at the path, as after a kill.
fn is_left<R: Net + Files>(rt: &R, path: &str) -> bool {
    match fs::symlink_metadata(rt, path) {
        Ok(found) if found.file_type().is_socket() => match UnixStream::connect(rt, path) {
            Err(error) => error.kind() == ErrorKind::ConnectionRefused,
            Ok(_) => false,
        },
        _ => false,
    }
}
