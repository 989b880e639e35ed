//! Tests of which faces open and close for UDP endpoints and connections.
#![tactic(auto)]

#[cfg(test)]
mod scripts;
