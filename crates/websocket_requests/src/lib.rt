//! Whether a request for a WebSocket connection may be accepted, by its Origin.
#![tactic(auto)]

mod fault;
mod field;
mod line;
mod origin;
mod request;

pub use fault::RequestFault;
pub use origin::is_origin;
pub use request::{MAX_HEAD, Progress, check};
