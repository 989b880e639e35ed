//! Reads rule files for Named Data Networking, and decides by the rules of a file which packets are
//! allowed.
#![tactic(auto)]

mod anchor_block;
mod block_reader;
mod checker_block;
mod checks;
mod decision;
mod entry;
mod fault;
mod filter_block;
mod form;
mod found;
mod hyper_block;
mod keys;
mod locator;
mod locator_block;
mod matching;
mod name_test;
mod packet;
mod readers;
mod report;
mod rule;
mod rule_block;
mod rule_file;
mod rules;
mod table;
mod tree;
mod tree_draft;
mod tree_reader;
mod unescape;
mod value_kind;
mod value_words;
mod walk;
mod words;

pub use decision::{
    Decision, Reason, allowed_packets_name_their_signer, decisions_are_unique,
    no_packet_is_undecided,
};
pub use entry::Entry;
pub use fault::{RulesFault, RulesFaultKind};
pub use keys::{Key, Keys};
pub use locator::{hierarchical_keys_match_a_pattern, hierarchical_text_spells_its_pattern};
pub use packet::{Packet, read_packets_have_a_shape};
pub use report::the_least_is_reported;
pub use rule::Kind;
pub use rule_file::rule_files_have_one_reading;
pub use rules::{RuleNo, Rules};
pub use tree::InfoTree;
pub use tree_reader::{faults_stand_at_their_line, outlines_keep_blocks, trees_have_one_reading};
