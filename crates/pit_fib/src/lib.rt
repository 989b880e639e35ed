//! Where Interests are sent, and which faces wait for Data: next hops and strategies by name,
//! pending Interests by key, and sets of faces.
#![tactic(auto)]

mod array_list;
mod arrival;
mod by_face;
mod entry;
mod face_map;
mod face_set;
mod fault;
mod fib;
mod fib_entry;
mod flags;
mod hops;
mod inheriting;
mod key_buf;
mod last;
mod law;
mod led;
mod listing;
mod nacked;
mod pit;
mod prepared;
mod record_tally;
mod registered;
mod revisions;
mod room;
mod route;
mod row;
mod slots;
mod strategy_table;
mod tally;

pub use by_face::Used;
pub use face_set::{Faces, MAX_FACES};
pub use fault::{PitFault, TableFault};
pub use fib::{Fib, MAX_DEPTH, MAX_ENTRIES, MAX_ROUTES};
pub use hops::{Hop, Hops};
pub use law::{
    effective_hops_are_as_defined, expiry_may_come_twice, hops_are_in_order,
    longest_is_the_longest_prefix, nacks_tell_the_least_reason, records_are_the_past,
    records_tell_the_table, revising_changes_each_value, routes_are_those_of_the_longest_prefix,
    routes_that_end_are_counted, table_limits_are_as_promised, tokens_for_data_are_one,
};
pub use nacked::Nacked;
pub use pit::{MAX_PENDING, Pit};
pub use strategy_table::{StrategyId, StrategyTable};
