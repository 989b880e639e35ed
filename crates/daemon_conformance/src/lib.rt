//! Tests of parts of the program `ndn_node`: options, configurations, lines of the log, the turns of
//! a node, the order of the first events, a reader that fails, and a journal in memory.
#![tactic(auto)]

#[cfg(test)]
mod command_line;
#[cfg(test)]
mod configuration;
#[cfg(test)]
mod limited_lines;
#[cfg(test)]
mod limits;
#[cfg(test)]
mod log_lines;
#[cfg(test)]
mod restarts;
#[cfg(test)]
mod turns;
#[cfg(test)]
mod watched;
