//! The Nonce of an Interest if the options do not give one.

ghost use Rattle.std.specs.Prelude.{◌≡◌, ◌++◌, flat_map, unwrap_or, IfOk, OnOk};
ghost use Rattle.ndn_jobs.specs.Nonce.{nonce_after, nonce_of, spaced};

use sha2::{Digest, Sha256};
use std::alloc::{AllocError, Global};
use std::convert::AsStr;
use std::io::Write;

/// Returns what a Nonce is computed from, together with a time: the words of a command line, each
/// with a space before it, and then the random octets.
pub fn seed_of<S: AsStr>(alloc: Global, random: &[u8], words: &[S]) -> Result<Vec<u8>, AllocError>
    ensures { IfOk result (λ seed. seed.items
        ≡ flat_map (λ word. spaced (S.text word)) words.now ++ random.now) }
{
    let mut seed = words_of(alloc, words)?;
    seed.extend_from_slice(random)?;
    Ok(seed)
}

/// Returns the words of a command line as one text, with a space before each word.
fn words_of<S: AsStr>(alloc: Global, words: &[S]) -> Result<Vec<u8>, AllocError>
    ensures { IfOk result
        (λ text. text.items ≡ flat_map (λ word. spaced (S.text word)) words.now) }
{
    let mut text = Vec::new(alloc);
    for word in words {
        put_spaced(&mut text, word.as_str())?;
    }
    Ok(text)
}

/// Appends a space and a word. If memory runs out, the space and a part of the word may have been
/// appended.
fn put_spaced(text: &mut Vec<u8>, word: &str) -> Result<(), AllocError>
    ensures { OnOk result (text.new.items ≡ text.old.items ++ spaced word.now) }
{
    text.push(b' ')?;
    text.extend_from_slice(word.as_bytes())
}

/// Returns the given Nonce. If no Nonce is given, returns a Nonce that is computed from the time
/// and the seed.
pub fn nonce_or(
    alloc: Global,
    given: Option<[u8; 4]>,
    time: u64,
    seed: &[u8],
) -> Result<[u8; 4], AllocError>
    ensures { IfOk result (λ nonce. nonce ≡ unwrap_or given (nonce_of time seed.now)) }
{
    match given {
        Some(nonce) => Ok(nonce),
        None => nonce_of(alloc, time, seed),
    }
}

/// Returns the Nonce with which an Interest is sent again: the first four octets of the SHA-256
/// digest of the Nonce before it.
pub fn nonce_after(nonce: [u8; 4]) -> [u8; 4]
    ensures { result ≡ nonce_after nonce }
{
    let mut hasher = Sha256::new();
    hasher.update(&nonce);
    let digest = hasher.finalize();
    let mut next = [0; 4];
    next.copy_from_slice(&digest[..4]);
    next
}

/// Returns a Nonce that is computed from a time and a seed: the first four octets of the SHA-256
/// digest of the time in decimal digits and then the seed.
fn nonce_of(alloc: Global, time: u64, seed: &[u8]) -> Result<[u8; 4], AllocError>
    ensures { IfOk result (λ nonce. nonce ≡ nonce_of time seed.now) }
{
    let time = time.to_string(alloc)?;
    let mut hasher = Sha256::new();
    hasher.update(time.as_bytes());
    hasher.update(seed);
    let digest = hasher.finalize();
    let mut nonce = [0; 4];
    nonce.copy_from_slice(&digest[..4]);
    Ok(nonce)
}
