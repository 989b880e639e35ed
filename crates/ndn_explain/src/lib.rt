//! Explanations of packets as lines of text: fields, commands, replies, datasets and signatures.
#![tactic(auto)]

mod dataset;
mod explain;
mod input;
mod meaning;
mod reply;
mod segment;
mod show;
mod tag_check;

pub use dataset::{Layout, put_entries};
pub use explain::{check_of, put_explanation, put_framed_explanation};
pub use input::put_input;
pub use meaning::parameters_in;
pub use reply::{put_written, written_content};
pub use segment::{last_segment, segment_of};
pub use show::{hex_line, put_frame, put_label, put_value};
pub use tag_check::TagCheck;
