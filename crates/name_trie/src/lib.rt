//! Values by name, in a trie. A lookup, a change of one value or a longest prefix match takes at
//! most one walk from the root of the trie.
#![tactic(auto)]

mod becomes;
mod change;
mod children;
mod component_buf;
mod held;
mod listing;
mod look;
mod name_map;
mod node;
mod rows;
mod see;
mod show;
mod take;
mod tally;
mod timed;
mod timed_map;
mod trie;

pub use becomes::Becomes;
pub use change::Change;
pub use look::Look;
pub use name_map::NameMap;
pub use see::See;
pub use show::{Carry, Show};
pub use take::Take;
pub use tally::Tally;
pub use timed::Timed;
pub use timed_map::TimedMap;
