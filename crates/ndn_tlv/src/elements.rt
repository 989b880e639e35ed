ghost use Rattle.std.specs.Prelude.{◌≡◌};
ghost use Rattle.std.specs.Iterator.{YieldsFirstBy, item_count};
ghost use Rattle.ndn_tlv.specs.Elements.{field_or_fault, octets_left, elements_left};

use crate::element::{Element, first_element};
use crate::fault::TlvFault;

/// An iterator over the elements of some octets, in order. If an element cannot be read, its fault
/// is the last item (NDN Packet Format 0.3, "Type-Length-Value (TLV) Encoding").
#[derive(Clone, Copy, Debug)]
pub struct Elements<'a> {
    rest: &'a [u8],
}

impl<'a> Elements<'a> {
    /// Returns an iterator over the elements of `octets`.
    pub fn new(octets: &'a [u8]) -> Elements<'a>
        ensures { octets_left result ≡ octets.now }
    {
        Elements { rest: octets }
    }
}

impl<'a> Iterator for Elements<'a> {
    type Item = Result<Element<'a>, TlvFault>;

    ghost next_gives = { YieldsFirstBy field_or_fault elements_left };

    ghost remaining = { item_count elements_left };

    fn next(&mut self) -> Option<Result<Element<'a>, TlvFault>> {
        if self.rest.is_empty() {
            return None;
        }
        match first_element(self.rest) {
            Ok((element, rest)) => {
                self.rest = rest;
                Some(Ok(element))
            }
            Err(fault) => {
                self.rest = &[];
                Some(Err(fault))
            }
        }
    }
}
