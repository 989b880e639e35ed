use thiserror::Error;

/// Why a request for a WebSocket connection is refused.
#[derive(Clone, Copy, Debug, PartialEq, Eq, Error)]
pub enum RequestFault {
    /// The head of the request has more than 8,192 octets.
    #[error("the head of the request has more than 8192 octets")]
    TooLong,
    /// A line of the head is not ended by CR LF, has another CR or LF, or is the empty line before
    /// the first; or a field line does not begin with a name and a colon.
    #[error("a line of the request is malformed")]
    BadLine,
    /// Octets follow the head.
    #[error("octets follow the head of the request")]
    OctetsAfter,
    /// The head has no field Origin, as the requests of programs that are no browsers.
    #[error("the request has no Origin")]
    NoOrigin,
    /// The head has more than one field Origin.
    #[error("the request has two Origins")]
    TwoOrigins,
    /// The Origin is not listed.
    #[error("the Origin of the request is not listed")]
    OtherOrigin,
}
