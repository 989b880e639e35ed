//! Reads and writes Interests and Data of the NDN Packet Format 0.3, and link packets of NDNLPv2.
//! Packets are read in place.
#![tactic(auto)]

mod answers;
pub mod command_types;
mod covered;
mod data;
mod data_writer;
mod fault;
mod field_reader;
mod field_writer;
mod frame;
mod full_name;
mod hop_limit;
mod interest;
mod interest_writer;
mod key;
mod link;
mod meta_info;
mod schema;
mod signature;
pub mod types;

pub use answers::answers_can_be_tested;
pub use covered::{Parts, covered_octets_have_one_reading, signed_packets_have_covered_octets};
pub use data::Data;
pub use data_writer::{DataWriter, put_reply};
pub use fault::{PacketFault, WriteFault};
pub use field_reader::{fields_tell_the_first_fault, packets_tell_the_first_fault};
pub use frame::{
    Frame, Framed, MAX_FRAME, MAX_PACKET, frames_have_one_reading, frames_tell_the_first_fault,
    packets_in_hand_are_read, read_frame, read_lp,
};
pub use full_name::FullName;
pub use hop_limit::hop_limit_mut;
pub use interest::Interest;
pub use interest_writer::InterestWriter;
pub use key::{Key, interest_keys_can_be_keys};
pub use link::{put_lp, put_nack, wrap};
pub use signature::{Locator, Sign, Signature};
pub use types::{CONGESTION, DIGEST_SHA256, DUPLICATE, HMAC_WITH_SHA256, NO_ROUTE};
