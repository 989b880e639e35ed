//! Tests of which requests for a WebSocket connection are allowed.
#![tactic(auto)]

#[cfg(test)]
mod heads;
#[cfg(test)]
mod origins;
