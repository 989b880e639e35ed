//! The command line of the program `ndn_node`, its files, a node on a port, and the shortening of
//! journals. The program also runs scripts, which this crate does not do.
#![tactic(auto)]

mod advice;
mod command;
mod configuration;
mod disk_journal;
mod event_log;
mod fault;
mod fault_line;
mod files;
mod logged_ports;
mod machine_clock;
mod options;
mod port;
mod rule_files;
mod shortening;
mod standard_error;
mod stored_journal;
mod turns;
mod udp_options;
mod watched_ports;

pub use command::{Request, request_of};
pub use configuration::{options_of, read_config_file, read_configuration};
pub use disk_journal::DiskJournal;
pub use event_log::{EventLog, LogSink};
pub use fault::{Fault, JournalFault};
pub use fault_line::report_fault;
pub use files::{read_key_file, read_keys, read_rule_file, read_rules};
pub use logged_ports::{HasEndpoints, LoggedPorts};
pub use machine_clock::MachineClock;
pub use options::{Options, ShorteningOptions};
pub use port::run_on_port;
pub use rule_files::RuleFiles;
pub use shortening::shorten_file;
pub use standard_error::StandardError;
pub use stored_journal::StoredJournal;
pub use turns::{Ran, run, run_restored};
pub use udp_options::{LogLevel, UdpOptions};
pub use watched_ports::{RuleSource, WatchedPorts, sources_are_checked_as_promised};
