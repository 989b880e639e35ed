//! Tests of commands and of the repository that no scenario shows: full tables, names that no node
//! reads as a command, segments, prepared and refused memory, comparisons of tables, and random
//! calls of the repository.
#![tactic(auto)]

#[cfg(test)]
mod management;
#[cfg(test)]
mod repository;
