//! The content store: Data that a forwarder caches to answer later Interests.
#![tactic(auto)]

mod blocks;
mod entry;
mod fault;
mod full_name;
mod places;
mod rows;
mod sought;
mod store;

pub use fault::StoreFault;
pub use store::{Store, store_limits_are_as_promised};
