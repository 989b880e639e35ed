//! Reading and writing numbers and elements of the Named Data Networking packet format. Elements
//! are read in place, without copies.
#![tactic(auto)]

mod element;
mod element_writer;
mod elements;
mod fault;
mod field;
mod integer;
mod memory;
mod number;

pub use element::{Element, elements_have_one_reading, first_element, put_element};
pub use element_writer::{
    element_len, nni_element_len, put_flag, put_header, put_nni_element, put_number_field,
};
pub use elements::Elements;
pub use fault::TlvFault;
pub use field::{first_field, single_element};
pub use integer::{nni_len, nni_of, put_nni};
pub use memory::Memory;
pub use number::{
    each_number_has_one_spelling, no_spelling_begins_another, number_len, number_of, put_number,
};
