//! Reads the words of a command line as a job, or returns a fault if the words describe no job.
#![tactic(auto)]

mod command;
mod fault;
mod job;
mod nonce;
mod options;
mod repository_form;
mod short_form;
mod token;
mod value;

pub use command::parse_words;
pub use fault::{ToolFault, Usage, refusal};
pub use job::{
    AskJob, CommandJob, DataJob, ExplainJob, GetJob, InterestJob, Job, KeyChoice, KeyJob, LinkJob,
    Ports, PutJob, SendJob, Stamp, TagJob,
};
pub use nonce::nonce_after;
pub use token::{Token, token_octets};
