//! The forwarder as a state machine that handles events.
#![tactic(auto)]

mod arrived;
mod command;
mod data;
mod dataset;
mod denial;
mod event;
mod face_events;
mod freshness;
mod interest;
mod law;
mod nack;
mod new_rules;
mod next_hops;
mod node;
mod open_faces;
mod outbox;
mod packet;
mod reply;
mod request;
mod sends;
mod state;
mod verdict;

pub use denial::id_of;
pub use event::{Event, OwnedEvent, RulesAndKeys, Scope, lend};
pub use law::{
    cached_data_were_allowed, commands_are_allowed_once, denials_name_their_rule,
    denied_events_change_nothing, each_send_is_explained, events_have_one_effect,
    every_data_sent_was_asked_for, guards_hold_allowed_commands, histories_decide, keys_stay_apart,
    moments_in_a_row_are_as_the_later, new_nodes_stand_in_the_empty_run, objects_were_allowed,
    records_are_read_off_the_run, registered_routes_are_read_off_the_run,
    routes_are_read_off_the_run, rules_in_force, steps_go_on_with_runs, steps_have_one_effect,
    steps_keep_nodes_sound, unanswered_interests_wait,
};
pub use node::{Node, NodeFault, NodeParts};
pub use outbox::Outbox;
pub use pit_fib::MAX_FACES;
pub use verdict::{DropReason, Verdict};
