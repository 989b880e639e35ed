ghost use Rattle.std.specs.Prelude.{◌≡◌, ◌∷◌, ◌<◌, ℕ, List, IfSome, length};
ghost use Rattle.std.specs.Cmp.Lexicographic.{slice_cmp};
ghost use Rattle.std.specs.Ordering.{nat_cmp};
ghost use Rattle.sha2.specs.Sha256.{sha256};
ghost use Rattle.ndn_names.specs.Order.{name_cmp};
ghost use Rattle.ndn_names.specs.View.{components};
ghost use Rattle.ndn_packets.specs.Answers.{full_name};
ghost use Rattle.ndn_tlv.specs.Element.{Field};
ghost use Rattle.content_store.specs.Entry.{digest_octets, AreShorter, IsHead, OrdersFullNames};

use ndn_names::Name;
use ndn_names::component_type::IMPLICIT_SHA256_DIGEST;
use sha2::{Digest, Sha256};
use std::cmp::Ordering;

/// The length of an implicit digest, in octets.
const DIGEST_LEN: u8 = 32;

/// The length in octets of the head of a name. The head is the start of the encoded name.
pub const HEAD_LEN: usize = 32;

/// `head` contains the first 32 octets of an encoded name (the first name), or is `None` if the
/// first name has fewer than 32 octets. Compares `head` with the first 32 octets of the encoded
/// name `other`. Returns `Equal` if the compared octets are equal, or if at least one of the two
/// names has fewer than 32 octets. A result other than `Equal` is also the result of two other
/// comparisons: the full name of any Data that has the first name, compared with the name `other`;
/// and this full name, compared with the full name of any Data named `other`.
#[inline(always)]
pub fn compare_heads(head: &Option<[u8; HEAD_LEN]>, other: Name<'_>) -> Ordering
    ensures { (name : List Field) → IfSome head.now (λ h. IsHead name h)
        → OrdersFullNames name (components other.entry) result }
{
    let Some(mine) = head else {
        return Ordering::Equal;
    };
    match other.as_octets().first_chunk::<HEAD_LEN>() {
        Some(its) => mine.as_slice().cmp(its.as_slice()),
        None => Ordering::Equal,
    }
}

/// Compares, in canonical order, the full name of a Data with the name `other`. The Data is given
/// by its name and octets.
#[inline(always)]
pub fn compare_with_name(name: Name<'_>, octets: &[u8], other: Name<'_>) -> Ordering
    ensures { result ≡ name_cmp (full_name (components name.entry) (sha256 octets.now))
        (components other.entry) }
{
    let mine = name.as_octets();
    let its = other.as_octets();
    if its.len() <= mine.len() {
        return mine.cmp(its).then(Ordering::Greater);
    }
    let (front, rest) = its.split_at(mine.len());
    match mine.cmp(front) {
        Ordering::Equal => compare_digest(octets, rest),
        order => order,
    }
}

/// Compares, in canonical order, the full names of two Data. Each Data is given by its name and
/// octets.
pub fn compare_full_names(
    name: Name<'_>,
    octets: &[u8],
    other: Name<'_>,
    other_octets: &[u8],
) -> Ordering
    ensures { result ≡ name_cmp (full_name (components name.entry) (sha256 octets.now))
        (full_name (components other.entry) (sha256 other_octets.now)) }
{
    let mine = name.as_octets();
    let its = other.as_octets();
    if mine.len() < its.len() {
        return compare_longer(name, octets, other);
    }
    if its.len() < mine.len() {
        return compare_longer(other, other_octets, name).reverse();
    }
    match mine.cmp(its) {
        Ordering::Equal => compare_digests(octets, other_octets),
        order => order,
    }
}

/// Compares, in canonical order, the full name of a Data with the full name of any Data named
/// `other`. `other` must have more octets than `name`, so that the digest of the Data named `other`
/// does not matter. The first Data is given by its name `name` and its octets `octets`.
fn compare_longer(name: Name<'_>, octets: &[u8], other: Name<'_>) -> Ordering
    requires { AreShorter name other }
    ensures { (digest : List ℕ) → length digest ≡ 32
        → result ≡ name_cmp (full_name (components name.entry) (sha256 octets.now))
        (full_name (components other.entry) digest) }
{
    let mine = name.as_octets();
    let (front, rest) = other.as_octets().split_at(mine.len());
    match mine.cmp(front) {
        Ordering::Equal => compare_digest(octets, rest).then(Ordering::Less),
        order => order,
    }
}

/// Compares an encoded implicit digest component with `rest`. The component contains the implicit
/// digest of the Data that `octets` encodes. `rest` is the octets of the components at the end of
/// another name.
fn compare_digest(octets: &[u8], rest: &[u8]) -> Ordering
    ensures { result ≡ slice_cmp nat_cmp (digest_octets (sha256 octets.now)) rest.now }
{
    let Some((kind, after_kind)) = rest.split_first() else {
        return Ordering::Greater;
    };
    let order = (IMPLICIT_SHA256_DIGEST as u8).cmp(kind);
    if order.is_ne() {
        return order;
    }
    let Some((len, value)) = after_kind.split_first() else {
        return Ordering::Greater;
    };
    DIGEST_LEN
        .cmp(len)
        .then(Sha256::digest(octets).as_slice().cmp(value))
}

/// Compares the implicit digests of two Data. `octets` and `other` are the octets of the two Data.
fn compare_digests(octets: &[u8], other: &[u8]) -> Ordering
    ensures { result ≡ slice_cmp nat_cmp (sha256 octets.now) (sha256 other.now) }
{
    if octets == other {
        return Ordering::Equal;
    }
    Sha256::digest(octets)
        .as_slice()
        .cmp(Sha256::digest(other).as_slice())
}
