//! Names of Named Data Networking: components, canonical order and URI text.
#![tactic(auto)]

mod component;
mod component_text;
pub mod component_type;
mod components;
mod fault;
mod first_of_type;
mod key;
mod name;
mod name_buf;
mod order;
mod text_equality;
mod type_name;
mod uri;
mod uri_reader;

pub use component::Component;
pub use components::Components;
pub use fault::NameFault;
pub use first_of_type::FirstOfType;
pub use name::{MAX_COMPONENTS, Name, names_have_one_reading};
pub use name_buf::NameBuf;
pub use order::{
    canonical_order_is_total, comparison_tells_the_order, names_can_be_keys,
    octets_are_in_canonical_order,
};
pub use text_equality::uris_are_equal;
pub use uri::names_read_back;
pub use uri_reader::{component_from_uri, texts_have_one_reading, uri_len};
