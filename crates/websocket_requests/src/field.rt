//! The fields of a head.
ghost use Rattle.std.specs.Prelude.{◌≡◌, ◌≤◌, length};
ghost use Rattle.std.specs.List.{list_all, position, position_or_len};
ghost use Rattle.websocket_requests.specs.Field.{is_colon, is_named, is_origin_field, is_space, is_text, is_token, trimmed, value_of, without_end};

/// Returns whether the line begins with the name of a field and a colon.
pub(crate) fn is_named(line: &[u8]) -> bool
    ensures { result ≡ is_named line.now }
{
    let colon = first_colon(line);
    colon > 0 && colon < line.len() && is_all_tokens(&line[..colon])
}

/// Returns whether the name of the field is Origin, in upper or lower case.
pub(crate) fn is_origin_field(line: &[u8]) -> bool
    ensures { result ≡ is_origin_field line.now }
{
    line[..first_colon(line)].eq_ignore_ascii_case(b"origin")
}

/// Returns the value of the field: what follows the colon, without the spaces and tabs around it.
pub(crate) fn value_of(line: &[u8]) -> &[u8]
    ensures { result.now ≡ value_of line.now }
{
    let colon = first_colon(line);
    if colon < line.len() {
        trimmed(&line[colon + 1..])
    } else {
        &[]
    }
}

/// Returns the index of the first colon, or the number of octets if there is none.
fn first_colon(octets: &[u8]) -> usize
    ensures { result ≡ position_or_len is_colon octets.now }
{
    match position_of_colon(octets) {
        Some(index) => index,
        None => octets.len(),
    }
}

fn position_of_colon(octets: &[u8]) -> Option<usize>
    ensures { result ≡ position is_colon octets.now }
{
    octets.iter().position(|octet| *octet == b':')
}

fn is_all_tokens(octets: &[u8]) -> bool
    ensures { result ≡ list_all is_token octets.now }
{
    octets.iter().all(|octet| is_token(*octet))
}

/// Returns whether the octet may be in the name of a field (RFC 9110 section 5.6.2, "Tokens").
fn is_token(octet: u8) -> bool
    ensures { result ≡ is_token octet }
{
    octet.is_ascii_alphanumeric() || b"!#$%&'*+-.^_`|~".contains(&octet)
}

/// Returns the octets without the spaces and tabs at their start and their end.
fn trimmed(octets: &[u8]) -> &[u8]
    ensures { result.now ≡ trimmed octets.now }
{
    without_end(&octets[first_text(octets)..])
}

/// Returns the index of the first octet that is no space and no tab, or the number of octets if
/// there is none.
fn first_text(octets: &[u8]) -> usize
    ensures first { result ≡ position_or_len is_text octets.now }
    ensures within { result ≤ length octets.now }
{
    match position_of_text(octets) {
        Some(index) => index,
        None => octets.len(),
    }
}

fn position_of_text(octets: &[u8]) -> Option<usize>
    ensures { result ≡ position is_text octets.now }
{
    octets.iter().position(|octet| is_text(*octet))
}

/// Returns the octets without the spaces and tabs at their end.
fn without_end(octets: &[u8]) -> &[u8]
    ensures { result.now ≡ without_end octets.now }
{
    let mut end = octets.len();
    while end > 0 && is_space(octets[end - 1]) {
        end -= 1;
    }
    &octets[..end]
}

/// Returns whether the octet is no space and no tab.
fn is_text(octet: u8) -> bool
    ensures { result ≡ is_text octet }
{
    !is_space(octet)
}

/// Returns whether the octet is a space or a tab.
fn is_space(octet: u8) -> bool
    ensures { result ≡ is_space octet }
{
    octet == b' ' || octet == b'\t'
}
