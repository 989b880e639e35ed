//! Which face a packet arrives on, and which faces open and close, for the faces over UDP, TCP and
//! Unix sockets of a node. This crate has no socket and no clock.
#![tactic(auto)]

mod clients;
mod holdings;
mod link;
mod peers;
mod table;

pub use clients::{Client, Clients, GIVE_WAY_MILLISECONDS};
pub use holdings::Holdings;
pub use link::Link;
pub use peers::{MAX_FACES, Peers};
pub use table::{FaceTable, Met};
