//! The lines of a head.
ghost use Rattle.std.specs.Prelude.{◌≡◌};
ghost use Rattle.std.specs.List.{position, position_or_len};
ghost use Rattle.websocket_requests.specs.Line.{cut_at, is_break, line_of};
ghost use Rattle.websocket_requests.specs.Plain.{cut_plain};

use crate::fault::RequestFault;

pub(crate) const CR: u8 = 13;

pub(crate) const LF: u8 = 10;

/// Returns the line at the front of the octets, without the CR LF that ends it, and the octets
/// after it. Returns `None` if more octets are needed.
pub(crate) fn cut_line(octets: &[u8]) -> Result<Option<(&[u8], &[u8])>, RequestFault>
    ensures { cut_plain result ≡ line_of octets.now }
{
    let (text, rest) = octets.split_at(first_break(octets));
    end_line(text, rest)
}

/// Ends a line with this text, which has no CR and no LF, if the octets after it begin with CR LF.
fn end_line<'a>(
    text: &'a [u8],
    rest: &'a [u8],
) -> Result<Option<(&'a [u8], &'a [u8])>, RequestFault>
    ensures { cut_plain result ≡ cut_at text.now rest.now }
{
    let Some((first, others)) = rest.split_first() else {
        return Ok(None);
    };
    if *first != CR {
        return Err(RequestFault::BadLine);
    }
    match others.split_first() {
        None => Ok(None),
        Some((second, after)) if *second == LF => Ok(Some((text, after))),
        Some(_) => Err(RequestFault::BadLine),
    }
}

/// Returns the index of the first CR or LF, or the number of octets if there is none.
fn first_break(octets: &[u8]) -> usize
    ensures { result ≡ position_or_len is_break octets.now }
{
    match position_of_break(octets) {
        Some(index) => index,
        None => octets.len(),
    }
}

fn position_of_break(octets: &[u8]) -> Option<usize>
    ensures { result ≡ position is_break octets.now }
{
    octets.iter().position(|octet| *octet == CR || *octet == LF)
}
