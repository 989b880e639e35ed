//! A repository of Data. Commands insert, delete and check Data.
#![tactic(auto)]

mod command;
mod fields;
mod law;
mod object;
mod objects;
mod reply;
mod repo;
mod row_insertion;
mod types;
mod verb;
mod want_names;
mod wants;

pub use command::{Asked, command_in};
pub use law::{
    full_names_answer_as_data, kept_entries_by_key, limits_are_kept, objects_stay_data,
    removals_keep_preparations, repo_replies_are_bounded, repo_statuses_have_texts,
    verbs_follow_the_prefix,
};
pub use reply::{MAX_REPLY_LEN, RepoReply, Want, put_repo_reply, repo_status_text};
pub use repo::{MAX_HELD, MAX_WANTS, Repo, repo_limits_are_as_promised};
pub use types::repo_statuses_are_as_assigned;
pub use verb::Verb;
