//! Packets of the uwsgi protocol: headers, vars blocks and array blocks, read and written exactly.
#![tactic(auto)]

pub mod blocks;
pub mod laws;
pub mod packet;
pub mod reading;

pub use blocks::{read_array, read_vars, write_vars};
pub use packet::{Header, Packet, PacketFault};
pub use reading::{read_block, read_header, read_packet, skip_body};
