//! Requests to a node or a repository, and the answers to them: the names of commands, and the
//! outcome of a request, given the datagram that answers it.
#![tactic(auto)]

mod exchange;
mod fault;
mod law;
mod names;
mod parameters;
mod reply;

pub use exchange::{Exchange, Progress, View, forged_in};
pub use fault::{Failure, Silence};
pub use law::{
    commands_tell_whose_they_are, nodes_read_what_is_asked, replies_are_explained,
    repositories_read_what_is_asked, statuses_decide,
};
pub use names::{NodeList, action_name, list_name};
pub use parameters::{Parameters, command_name};
pub use reply::{Outcome, judge, put_explained, repository_number, silence_of};
