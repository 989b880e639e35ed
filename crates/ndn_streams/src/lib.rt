//! Packets in a stream of octets, for faces over TCP and Unix sockets: a stream is its packets, one
//! after another.
#![tactic(auto)]

mod buffer;
mod connection;
mod cutter;
mod fault;
mod law;
mod packet_stream;
mod queue;
mod size;

pub use connection::Connection;
pub use cutter::Cutter;
pub use fault::StreamFault;
pub use law::{
    any_cut_gives_the_same_packets, faults_are_told_at_once, only_whole_packets_are_written,
    streams_have_one_reading,
};
pub use packet_stream::{INBOX, PacketStream};
pub use queue::Queue;
pub use size::{MAX_FRAME, packet_size};
