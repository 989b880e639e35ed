//! Shorter journals: the choice of those lines of a journal from which a node restores the same
//! tables as from the whole journal, and the text of these lines.
#![tactic(auto)]

mod comparing;
mod fault;
mod needed;
mod playing;
mod reach;
mod repository;
mod shortening;
mod subject;
mod survey;
mod table_commands;
mod writer;

pub use fault::ShortenFault;
pub use shortening::{ShorterJournal, shortened};
