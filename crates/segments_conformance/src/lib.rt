//! Tests of cutting files into segments, and of putting files together from segments.
#![tactic(auto)]

#[cfg(test)]
mod arrivals;
#[cfg(test)]
mod files;
#[cfg(test)]
mod pipelines;
#[cfg(test)]
mod rows;
#[cfg(test)]
mod written;
