//! The outside: sources, sinks, clocks, lives, spawners, listeners and binders as traits with counts of their faults,
//! their forms in memory, and the adapters over the real ones.
#![tactic(auto)]

pub mod binder;
pub mod board;
pub mod clock;
pub mod counts;
pub mod fuse;
pub mod gate;
pub mod life;
pub mod link_binder;
pub mod link_list;
pub mod listener;
pub mod real;
pub mod sink;
pub mod sockets;
pub mod source;
pub mod spawner;
pub mod threads;

pub use binder::{Binder, NotBound};
pub use board::{BoardOut, Texts};
pub use clock::{Clock, FixedClock, SteadyClock};
pub use fuse::Fuse;
pub use gate::Gate;
pub use life::{Died, Immortal, Life};
pub use link_binder::LinkBinder;
pub use link_list::LinkList;
pub use listener::{Accepted, Listener};
pub use real::{Reading, SystemClock, Writing};
pub use sink::{BytesOut, Put, Sink, put_all};
pub use sockets::{SocketBinder, SocketEnd, SocketListener};
pub use source::{BytesIn, Filled, Got, Source, fill};
pub use spawner::{Job, NoSpawner, NotStarted, Spawner};
pub use threads::{JobSlot, ThreadSpawner, start_from};
