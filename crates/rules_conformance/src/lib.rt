//! Tests of name patterns, rule files, decisions by rules, and the freshness of commands.
#![tactic(auto)]

#[cfg(test)]
mod guard;
#[cfg(test)]
mod patterns;
#[cfg(test)]
mod rows;
#[cfg(test)]
mod rules;
