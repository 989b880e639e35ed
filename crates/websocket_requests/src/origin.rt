//! What an operator may list.
ghost use Rattle.std.specs.Prelude.{◌≡◌};
ghost use Rattle.std.specs.List.{list_all};
ghost use Rattle.websocket_requests.specs.Origin.{is_host, is_in_host, is_in_scheme, is_origin, is_place, is_scheme, is_small};

/// Returns whether the text has the form of an origin as browsers send it (RFC 6454 section 6.2):
/// a scheme in lower case, `://`, and a host, also with a colon and a port, such as
/// `https://example.org` or `http://localhost:8080`. So `null` and `*` are no origins, nor is a
/// text with a path.
pub fn is_origin(text: &str) -> bool
    ensures { result ≡ is_origin text.now }
{
    match text.split_once(':') {
        Some((scheme, place)) => is_scheme(scheme.as_bytes()) && is_place(place.as_bytes()),
        None => false,
    }
}

/// Returns whether the octets are a scheme in lower case (RFC 3986 section 3.1, "Scheme").
fn is_scheme(octets: &[u8]) -> bool
    ensures { result ≡ is_scheme octets.now }
{
    match octets.split_first() {
        Some((first, others)) => is_small(*first) && are_in_scheme(others),
        None => false,
    }
}

/// Returns whether the octets are `//`, and then a host, also with a port.
fn is_place(octets: &[u8]) -> bool
    ensures { result ≡ is_place octets.now }
{
    match octets.split_first() {
        Some((b'/', others)) => match others.split_first() {
            Some((b'/', host)) => is_host(host),
            _ => false,
        },
        _ => false,
    }
}

fn is_host(octets: &[u8]) -> bool
    ensures { result ≡ is_host octets.now }
{
    octets.len() > 0 && are_in_host(octets)
}

fn are_in_scheme(octets: &[u8]) -> bool
    ensures { result ≡ list_all is_in_scheme octets.now }
{
    octets.iter().all(|octet| is_in_scheme(*octet))
}

fn are_in_host(octets: &[u8]) -> bool
    ensures { result ≡ list_all is_in_host octets.now }
{
    octets.iter().all(|octet| is_in_host(*octet))
}

fn is_small(octet: u8) -> bool
    ensures { result ≡ is_small octet }
{
    b'a' <= octet && octet <= b'z'
}

fn is_in_scheme(octet: u8) -> bool
    ensures { result ≡ is_in_scheme octet }
{
    is_small(octet) || (b'0' <= octet && octet <= b'9') || b"+-.".contains(&octet)
}

fn is_in_host(octet: u8) -> bool
    ensures { result ≡ is_in_host octet }
{
    is_small(octet) || (b'0' <= octet && octet <= b'9') || b"-._:[]".contains(&octet)
}
