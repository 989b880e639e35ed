//! The pipeline of a client that fetches the segments of a file: which Interest to send at a
//! moment, how many may be in flight, and when an unanswered one is sent again (RFC 5681 and RFC
//! 6298).
#![tactic(auto)]

mod fault;
mod flight;
mod law;
mod pipeline;
mod place;
mod rtt;
mod window;

pub use fault::PipelineFault;
pub use law::{
    estimates_are_rounded_to_parts_of_a_microsecond, no_segment_is_forgotten,
    no_segment_is_sent_too_often, only_segments_sent_once_give_samples,
    the_timeout_is_within_its_limits, the_window_is_halved_once_for_a_window_of_segments,
    the_window_limits_what_is_sent,
};
pub use pipeline::Pipeline;
pub use rtt::{FIRST_RTO, GRANULARITY, GREATEST_RTO, LEAST_RTO, RttEstimator};
pub use window::GREATEST_WINDOW;
