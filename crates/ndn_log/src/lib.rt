//! The lines of a log for operators. There are lines about the start and the events of a node,
//! failed sends, closed faces, datagrams that were dropped because their endpoints are not peers,
//! and lines that were left out because of limits.
#![tactic(auto)]

mod command;
mod entry;
mod event;
mod limits;
mod line;
mod notes;
mod packet;
mod time;
mod verdict;
mod words;

pub use entry::{Entry, LoggedEvent, is_plain, refused_on};
pub use event::put_event;
pub use limits::{LineLimits, ShownLine, limits_follow_what_came, shown_lines_are_limited};
pub use line::put_line;
pub use notes::{
    Start, put_closed, put_failed_send, put_left_out, put_lost, put_start, put_strangers,
};
