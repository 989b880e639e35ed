//! Checking the signature of a packet.

ghost use Rattle.std.specs.Prelude.{◌≡◌, ◌++◌, option_map};
ghost use Rattle.sha2.specs.Sha256.{sha256};
ghost use Rattle.hmac_keys.specs.Mac.{Mac};
ghost use Rattle.ndn_packets.specs.Packet.{AnInterest, plain_signature, plain_locator};
ghost use Rattle.ndn_packets.specs.View.{plain_frame, plain_interest};
ghost use Rattle.ndn_explain.specs.TagCheck.{IsValueCheck, IsLocatorCheck, IsEcdsaValueCheck, IsEcdsaCheck, IsKindCheck, IsPartsCheck, IsSignedCheck, IsTagCheck, parts_of};

use hmac_keys::{hmac_sha256, tags_equal};
use key_files::{EcdsaKey, KeyBook, SHA256_WITH_ECDSA};
use ndn_packets::{DIGEST_SHA256, Frame, HMAC_WITH_SHA256, Interest, Locator, Parts, Signature};
use sha2::{Digest, Sha256};

/// The result of checking a signature's value.
#[derive(Clone, Copy, Debug, PartialEq, Eq)]
pub enum TagCheck {
    /// The value is right for the octets that the signature covers.
    Right,
    /// The value is not right for the octets that the signature covers.
    Wrong,
    /// The KeyLocator names no key of the key file that is for this type of signature.
    UnknownKey,
    /// The signature is none of DigestSha256, HMAC and ECDSA, or it covers no octets.
    Unchecked,
}

/// Checks the signature of a packet with the keys of a book. Returns `None` if the packet is not
/// signed. For a Nack, the signature of the Interest in the Nack is checked.
pub fn check_tag(frame: &Frame<'_>, book: &KeyBook) -> Option<TagCheck>
    ensures { IsTagCheck (plain_frame frame.now) book.now result }
{
    match frame {
        Frame::Interest(interest) => check_interest(interest, book),
        Frame::Data(packet) => { Some(check_parts(packet.signature, packet.signed_parts(), book)) }
        Frame::Nack { interest, .. } => check_interest(interest, book),
        Frame::Idle => None,
    }
}

fn check_interest(interest: &Interest<'_>, book: &KeyBook) -> Option<TagCheck>
    ensures { IsSignedCheck (AnInterest interest.now.whole.now (plain_interest interest.now))
        (plain_interest interest.now).signature book.now result }
{
    match interest.signature {
        None => None,
        Some(signature) => Some(check_parts(signature, interest.signed_parts(), book)),
    }
}

/// Checks a signature over the covered octets `parts`. Returns `Unchecked` if the signature covers
/// no octets.
fn check_parts(signature: Signature<'_>, parts: Option<Parts<'_>>, book: &KeyBook) -> TagCheck
    ensures { IsPartsCheck (plain_signature signature.entry) book.now
        (option_map parts_of parts.entry) result }
{
    match parts {
        None => TagCheck::Unchecked,
        Some(parts) => check_value(signature, parts, book),
    }
}

fn check_value(signature: Signature<'_>, parts: Parts<'_>, book: &KeyBook) -> TagCheck
    ensures { IsKindCheck (plain_signature signature.entry) book.now
        (parts_of parts.entry) result }
{
    match signature.kind {
        DIGEST_SHA256 => compared(signature.value, &digest_of(parts)),
        HMAC_WITH_SHA256 => check_hmac(signature, parts, book),
        SHA256_WITH_ECDSA => check_ecdsa(signature, parts, book),
        _ => TagCheck::Unchecked,
    }
}

/// Checks an HMAC with the key that the KeyLocator names. Returns `UnknownKey` if the book has no
/// such key, or if the KeyLocator is not a name.
fn check_hmac(signature: Signature<'_>, parts: Parts<'_>, book: &KeyBook) -> TagCheck
    ensures { IsLocatorCheck (plain_locator signature.entry.locator) book.now
        signature.entry.value.now (parts_of parts.entry) result }
{
    let Locator::Name(name) = signature.locator else {
        return TagCheck::UnknownKey;
    };
    match book.find(name) {
        None => TagCheck::UnknownKey,
        Some(key) => compared(
            signature.value,
            &hmac_sha256(key, parts.first, parts.second),
        ),
    }
}

/// Checks an ECDSA signature with the public key that the KeyLocator names. Returns `UnknownKey` if
/// the book has no such key, or if the KeyLocator is not a name.
fn check_ecdsa(signature: Signature<'_>, parts: Parts<'_>, book: &KeyBook) -> TagCheck
    ensures { IsEcdsaCheck (plain_locator signature.entry.locator) book.now
        signature.entry.value.now (parts_of parts.entry) result }
{
    let Locator::Name(name) = signature.locator else {
        return TagCheck::UnknownKey;
    };
    match book.find_ecdsa(name) {
        None => TagCheck::UnknownKey,
        Some(key) => verified(key, parts, signature.value),
    }
}

/// Returns `Right` if the value is an ECDSA signature of the covered octets under the key, and
/// `Wrong` otherwise.
fn verified(key: &EcdsaKey, parts: Parts<'_>, value: &[u8]) -> TagCheck
    ensures { IsEcdsaValueCheck key.now value.now (parts_of parts.entry) result }
{
    if key.verifies(parts.first, parts.second, value) {
        TagCheck::Right
    } else {
        TagCheck::Wrong
    }
}

/// Returns SHA-256 of the covered octets.
fn digest_of(parts: Parts<'_>) -> [u8; 32]
    ensures { result ≡ sha256 (parts_of parts.entry) }
{
    let mut hasher = Sha256::new();
    hasher.update(parts.first);
    hasher.update(parts.second);
    hasher.finalize()
}

/// Returns `Right` if a signature's value is equal to `right`, and `Wrong` otherwise.
fn compared(value: &[u8], right: &[u8; 32]) -> TagCheck
    ensures { IsValueCheck value.now right.now result }
{
    if tags_equal(value, right) {
        TagCheck::Right
    } else {
        TagCheck::Wrong
    }
}
