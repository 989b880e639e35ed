use thiserror::Error;

/// Why octets are not a number or not an element (NDN Packet Format 0.3, "Type-Length-Value (TLV)
/// Encoding"). For an element, the first fault from the left is reported, in this order:
/// `Truncated` or `NotShortest` for the type, then `TypeZero` or `TypeTooLarge`, then `Truncated`
/// or `NotShortest` for the length, and then `Truncated` for the value.
#[derive(Clone, Copy, Debug, PartialEq, Eq, Error)]
pub enum TlvFault {
    /// Octets are missing, or there are no octets at all.
    #[error("the octets end inside a number or an element")]
    Truncated,
    /// A number takes more octets than necessary.
    #[error("a number is not in its shortest form, such as fd000b in place of 0b")]
    NotShortest,
    /// A TLV-TYPE is 0.
    #[error("a type is 0, but must be from 1 to 4294967295")]
    TypeZero,
    /// A TLV-TYPE is 2^32 or more.
    #[error("a type is above the limit of 4294967295")]
    TypeTooLarge,
    /// A NonNegativeInteger is not 1, 2, 4 or 8 octets long.
    #[error("a NonNegativeInteger must have 1, 2, 4 or 8 octets")]
    BadInteger,
}
