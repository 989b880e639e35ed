//! Tests of reading and writing elements, names and packets. Also tests of HMAC and of key files.
#![tactic(auto)]

#[cfg(test)]
mod keys;
#[cfg(test)]
mod names;
#[cfg(test)]
mod packets;
#[cfg(test)]
mod rows;
#[cfg(test)]
mod tlv;
