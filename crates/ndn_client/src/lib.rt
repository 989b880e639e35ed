//! The client `ndn_tool`: it writes packets, prints them or sends them to a node, explains packets,
//! and computes HMACs.
#![tactic(auto)]

mod answer;
mod download;
mod fault;
mod get;
mod input;
mod key_file;
mod key_show;
mod link;
mod plan;
mod put;
mod running;
mod source;

pub use download::{Download, stem_of};
pub use fault::Fault;
pub use input::{packet_in, read_input_line, read_packet_input};
pub use key_file::{read_book, read_key_file, unread_keys};
pub use key_show::{MAX_CERTIFICATE_FILE, read_key_lines};
pub use ndn_explain::put_input;
pub use ndn_jobs::{
    AskJob, CommandJob, DataJob, ExplainJob, GetJob, InterestJob, Job, KeyChoice, KeyJob, LinkJob,
    Ports, PutJob, SendJob, Stamp, TagJob, Token, ToolFault, Usage, parse_words,
};
pub use ndn_requests::{
    Exchange, Failure, NodeList, Outcome, Progress, Silence, View, judge, put_explained, silence_of,
};
pub use plan::{InputForm, Plan, fault_of_silence, input_form, plan_of};
pub use running::{book_of, exchange_on, run, socket_of};
pub use source::source_of;
