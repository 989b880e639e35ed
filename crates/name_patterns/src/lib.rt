//! Patterns for names of Named Data Networking, and templates for names.
#![tactic(auto)]

mod atom;
mod captures;
mod component_test;
mod draft;
mod fault;
mod pattern;
mod pattern_reader;
mod repeat;
mod search;
mod template;
mod template_reader;
mod test_reader;
mod text;

pub use captures::Captures;
pub use fault::PatternFault;
pub use pattern::Pattern;
pub use pattern_reader::patterns_have_one_reading;
pub use template::Template;
pub use template_reader::templates_have_one_reading;
