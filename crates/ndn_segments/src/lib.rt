//! Files as segments: Data with the pieces of a file, and the file again from such Data (NDN Naming
//! Conventions, revision 3).
#![tactic(auto)]

mod assembler;
mod cutter;
mod fault;
mod held;
mod law;
mod names;
mod segment;

pub use assembler::{Assembler, Taken};
pub use cutter::{CutFault, Cutter, USUAL_SIZE};
pub use fault::SegmentFault;
pub use law::{
    each_data_is_one_segment_or_none, missing_segments_are_waited_for, only_a_window_is_held,
    only_accepted_segments_are_written, pieces_make_the_file, segments_assemble_one_file,
    segments_give_the_file_in_any_order, the_next_segment_is_wanted,
    written_segments_are_of_the_file,
};
pub use names::{segment_name, version_name};
pub use segment::Segment;
