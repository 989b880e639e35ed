use thiserror::Error;

/// Why no packet can come at a place of a stream. The fault is known as soon as the octets that
/// have come are the beginning of no packet (NDN Packet Format 0.3, "Type-Length-Value (TLV)
/// Encoding").
#[derive(Clone, Copy, Debug, PartialEq, Eq, Error)]
pub enum StreamFault {
    /// The first octet is not the TLV-TYPE of a packet: 5, 6 or 100.
    #[error("the stream has no Interest (05), Data (06) or LpPacket (64) where one must begin")]
    UnknownType,
    /// A TLV-LENGTH below 253 takes three octets.
    #[error("the length of a packet is not in its shortest form, such as fd000b in place of 0b")]
    NotShortest,
    /// The whole packet would have more than 9,000 octets, or its TLV-LENGTH takes five or nine
    /// octets.
    #[error("a packet has more than 9000 octets")]
    TooLong,
}
