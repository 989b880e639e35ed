//! Ports over UDP, TCP, Unix sockets and WebSocket: one node has a face for each UDP endpoint that
//! it knows, and for each connection.
#![tactic(auto)]

mod face_holdings;
mod faces;
mod handshakes;
mod head_first;
mod net_ports;
mod packet_socket;
mod sockets;
mod unix_path;
mod wire;

pub use handshakes::HANDSHAKES;
pub use net_ports::{CONNECTION_PLACES, NetPorts, PARTIAL_MILLISECONDS, QUEUE_OCTETS};
pub use sockets::{BindFault, Listen};
