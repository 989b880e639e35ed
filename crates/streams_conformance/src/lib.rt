//! Tests of cutting streams into packets, of the packets that wait to be written, and of
//! connections.
#![tactic(auto)]

#[cfg(test)]
mod connection;
#[cfg(test)]
mod cuts;
#[cfg(test)]
mod packet_stream;
#[cfg(test)]
mod queues;
#[cfg(test)]
mod rows;
#[cfg(test)]
mod words;
