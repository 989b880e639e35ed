//! Reads the file that configures a node: where the node listens, its peers, and the files that it
//! uses.
#![tactic(auto)]

mod block;
mod config;
mod fault;
mod paths;
mod peers;
mod reader;
mod sections;
mod value;
mod words;

pub use config::{Config, Files, Limits, Listen, Log, LogLevel, Peer, Scope};
pub use fault::{ConfigFault, ConfigFaultKind};
pub use paths::{folder_of, placed_in};
pub use reader::configurations_have_one_reading;
