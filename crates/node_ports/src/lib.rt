//! Ports. A node gets its events from a port, and sends its packets to the port. There are ports in
//! memory, ports over UDP, ports with a journal, and ports that give some events first.
#![tactic(auto)]

mod datagram;
mod held;
mod journalled;
mod memory;
mod node_holdings;
mod ports;
mod renewal;
mod restarted;
mod serving;
mod udp;

pub use datagram::{ANSWER_SECONDS, receive_one, send_from, send_one};
pub use held::HeldArrival;
pub use journalled::JournalledPorts;
pub use memory::{MemoryPorts, OwnedArrival};
pub use node_holdings::NodeHoldings;
pub use ports::{Arrival, FRAME_ROOM, PortFault, Ports, ports_are_as_promised};
pub use renewal::{FileOctets, Renewal};
pub use restarted::RestartedPorts;
pub use serving::{ServeFault, Served, Turn, serve, serve_turn, serve_turn_in, serve_turn_soon};
pub use udp::{Moments, UdpPorts};
