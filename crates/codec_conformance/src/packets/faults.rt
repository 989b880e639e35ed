//! The messages of the faults of packets.

use crate::rows::check_rows;
use ndn_packets::*;
use ndn_tlv::TlvFault;
use std::alloc::Global;
use std::test::*;

const READ: [PacketFault; 11] = [
    PacketFault::Tlv(TlvFault::Truncated),
    PacketFault::NoName,
    PacketFault::CriticalUnknown,
    PacketFault::BadField,
    PacketFault::NoNonce,
    PacketFault::DigestMissing,
    PacketFault::DigestWrong,
    PacketFault::DigestWithout,
    PacketFault::Fragmented,
    PacketFault::LpField,
    PacketFault::TooLong,
];

const WRITTEN: [WriteFault; 3] = [WriteFault::BadName, WriteFault::TooLong, WriteFault::Memory];

/// Returns the message of the reading fault with this name.
fn read_fault(alloc: Global, name: &str) -> Option<String> {
    for fault in READ {
        if fault.name() == name {
            return format!(in alloc; "{fault}").ok();
        }
    }
    None
}

/// Returns the message of the writing fault with this name.
fn write_fault(alloc: Global, name: &str) -> Option<String> {
    for fault in WRITTEN {
        if fault.name() == name {
            return format!(in alloc; "{fault}").ok();
        }
    }
    None
}

#[test]
fn texts_of_faults(rt: HostRuntime) {
    let rows = "
Tlv Truncated -> the octets end inside a number or an element
NoName -> the packet does not begin with a name, or an Interest's name is empty
CriticalUnknown -> an element is unknown or out of order, and may not be ignored
BadField -> a field is missing, or its value is malformed
NoNonce -> the Interest has no Nonce
DigestMissing -> the name has no digest of the ApplicationParameters
DigestWrong -> the digest in the name is not that of the ApplicationParameters
DigestWithout -> the name has a digest of ApplicationParameters, but the Interest has none
Fragmented -> the packet is one of several fragments
LpField -> the link packet has a header field that it may not have
TooLong -> the packet is longer than 8800 octets, or the link packet is longer than 9000
";
    check_rows(&rt, rt.alloc(), rows, read_fault);
    let rows = "
BadName -> the Interest's name is empty, or has a digest of ApplicationParameters
TooLong -> the name has more than 64 components, or the packet has more than 8800 octets
Memory -> out of memory
";
    check_rows(&rt, rt.alloc(), rows, write_fault);
}
