//! Tests of a node through public functions. Many of them are dialogues of events and answers.
#![tactic(auto)]

#[cfg(test)]
mod node;
