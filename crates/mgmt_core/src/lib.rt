//! The commands by which an operator manages routes, strategies and the cache of a node, and the
//! datasets that list routes and strategies.
#![tactic(auto)]

mod action;
mod command;
mod dataset;
mod effect;
mod fields;
mod law;
mod outcome;
mod reply_body;
mod strategy_name;
mod tables;
mod types;
mod whole_reply;
mod window;

pub use action::Action;
pub use command::Command;
pub use dataset::{
    SEGMENT_LEN, fib_dataset, fib_segment, segment_limit_is_as_promised, segment_of,
    strategy_dataset, strategy_segment,
};
pub use effect::apply;
pub use law::{
    closings_leave_faces_up, commands_leave_faces_up, expiry_leaves_faces_up,
    openings_leave_faces_up, replies_are_bounded, statuses_have_texts,
};
pub use outcome::{Applied, Octets};
pub use reply_body::{BODY_EXTRA, REPLY_EXTRA};
pub use tables::Tables;
pub use types::command_statuses_are_as_assigned;
pub use whole_reply::{put_response, status_text};
