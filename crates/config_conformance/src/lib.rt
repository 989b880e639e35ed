//! Tests of configuration files.
#![tactic(auto)]

#[cfg(test)]
mod files;
