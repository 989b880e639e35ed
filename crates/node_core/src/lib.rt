//! Scripts, which are the events of a forwarder as text, and the text of the forwarder's answers.
#![tactic(auto)]

mod answer;
mod files;
mod script;

pub use answer::{put_refused, put_sends, put_verdict};
pub use files::{Files, read_rules};
pub use forwarder::{
    DropReason, Event, MAX_FACES, Node, NodeFault, NodeParts, Outbox, OwnedEvent, RulesAndKeys,
    Scope, Verdict, cached_data_were_allowed, commands_are_allowed_once, denials_name_their_rule,
    denied_events_change_nothing, each_send_is_explained, events_have_one_effect,
    every_data_sent_was_asked_for, guards_hold_allowed_commands, histories_decide, keys_stay_apart,
    new_nodes_stand_in_the_empty_run, objects_were_allowed, records_are_read_off_the_run,
    routes_are_read_off_the_run, rules_in_force, steps_go_on_with_runs, steps_have_one_effect,
    steps_keep_nodes_sound, unanswered_interests_wait,
};
pub use script::{
    Line, LineFault, RunFault, WrittenEvent, cut_line, event_line, hex_word, line_of, put_all,
    run_script, scripts_have_one_reading,
};
