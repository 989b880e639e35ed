//! Changing the HopLimit of an Interest in place (NDN Packet Format 0.3, "Interest Packet",
//! "HopLimit").

ghost use Rattle.std.specs.Prelude.{◌≡◌, ◌↔◌, ℕ, ◌<◌, Some, IsSome, IfSome, slice_index};
ghost use Rattle.std.specs.Borrow.{sem};
ghost use Rattle.ndn_packets.specs.Packet.{PlainInterest};
ghost use Rattle.ndn_packets.specs.Grammar.{IsInterest};
ghost use Rattle.ndn_packets.specs.HopLimit.{HasHopLimit, LendsHopLimit, hop_place, with_octet, with_limit};

use crate::covered::from_first;
use crate::frame::{Frame, read_frame};
use crate::types::HOP_LIMIT;
use ndn_tlv::first_element;

/// Returns a mutable borrow of the HopLimit's octet, or `None` if the octets are not one Interest
/// that has a HopLimit.
pub fn hop_limit_mut(octets: &mut [u8]) -> Option<&mut u8>
    // The borrow can change only the HopLimit's octet.
    ensures* lends { sem 𝓛 (LendsHopLimit octets.entry result) }
    // The result is `Some` exactly if the octets are an Interest with a HopLimit. The borrowed
    // octet is the value of this HopLimit.
    ensures found { IfSome result (λ limit. HasHopLimit octets.entry.now limit.now) }
    ensures only { (limit : ℕ) → HasHopLimit octets.entry.now limit → IsSome result }
    // Writing any octet in place of the HopLimit's octet gives the same Interest, except that the
    // written octet is its HopLimit.
    ensures still { (i : PlainInterest) (old limit : ℕ) → limit < 256
        → IsInterest octets.entry.now i → i.hop_limit ≡ Some old
        → IsInterest (with_octet octets.entry.now limit) (with_limit i limit) }
{
    let place = hop_place(octets);
    // An index out of bounds is handled here, because the contract of `get_mut` does not define the
    // slice after the borrow.
    if place >= octets.len() {
        return None;
    }
    Some(&mut octets[place])
}

/// Returns the index of the HopLimit's octet, or the length of `octets` if `octets` are not one
/// Interest that has a HopLimit.
fn hop_place(octets: &[u8]) -> usize
    ensures exact { result ≡ hop_place octets.now }
    // The proof of `hop_limit_mut` uses the fact that octets are below 256.
    ensures octets { (i : ℕ) → slice_index octets.now i < 256 }
{
    let end = octets.len();
    let Ok(Frame::Interest(interest)) = read_frame(octets) else {
        return end;
    };
    if interest.whole.len() != end || interest.hop_limit.is_none() {
        return end;
    }
    let Ok((outer, _)) = first_element(octets) else {
        return end;
    };
    match from_first(outer.value, HOP_LIMIT) {
        None => end,
        // The HopLimit's octet follows the type and the length of the HopLimit, which are one octet
        // each.
        Some(from) => end - from.len() + 2,
    }
}
