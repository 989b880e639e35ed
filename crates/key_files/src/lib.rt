//! Key files, and the key books that are read from them.
#![tactic(auto)]

mod ecdsa_key;
mod fault;
mod key;
mod key_book;
mod key_check;
mod key_line;

pub use ecdsa_key::{EcdsaKey, SHA256_WITH_ECDSA};
pub use fault::KeyFault;
pub use key::Key;
pub use key_book::{KeyBook, key_files_have_one_reading};
pub use key_line::first_line;
