//! NDN certificates (NDN Certificate Format 2.0) and the P-256 keys in them. Certificates are read
//! in place. The signature of a certificate is not verified.
#![tactic(auto)]

mod certificate;
mod data;
mod fault;
mod file;
mod key_info;
mod key_lines;

pub use certificate::{Certificate, certificates_have_one_reading};
pub use fault::CertificateFault;
pub use file::octets_in_file;
pub use key_lines::key_lines_in_file;
