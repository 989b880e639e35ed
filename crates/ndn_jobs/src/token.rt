//! PIT tokens that a command line gives.

ghost use Rattle.std.specs.Prelude.{◌≡◌, option_map, IfSome};
ghost use Rattle.ndn_packets.specs.Link.{IsToken};

use std::marker::Model;

/// The greatest length of a PIT token, in octets.
const MAX_TOKEN: usize = 32;

/// A PIT token of 1 to 32 octets (NDNLPv2, "PIT Token").
#[derive(Drop)]
pub struct Token {
    octets: Vec<u8>,
}

impl Model for Token {
    ghost use Rattle.std.specs.Prelude.{ℕ, List};
    ghost use Rattle.ndn_packets.specs.Link.{IsToken};

    ghost Value = { List ℕ };

    ghost view = { λ t. t.octets.items };

    ghost invariant = { λ t. IsToken t.octets.items };
}

impl Token {
    ghost use Rattle.std.specs.Prelude.{◌≡◌, MatchOption};
    ghost use Rattle.ndn_packets.specs.Link.{IsToken};

    /// Returns the token with these octets, or `None` if there are not 1 to 32 octets.
    pub fn new(octets: Vec<u8>) -> Option<Token>
        ensures { MatchOption result (IsToken octets.items → ⊥) (λ token. token ≡ octets.items) }
    {
        if octets.is_empty() || octets.len() > MAX_TOKEN {
            return None;
        }
        Some(Token { octets })
    }

    /// Returns the octets of the token.
    pub fn octets(&self) -> &[u8]
        ensures value { result.now ≡ self.now }
        ensures sized { IsToken result.now }
    {
        &self.octets
    }
}

/// Returns the octets of a token, or `None` if there is no token.
pub fn token_octets(token: &Option<Token>) -> Option<&[u8]>
    ensures value { option_map (λ o. o.now) result ≡ token.now }
    ensures sized { IfSome result (λ o. IsToken o.now) }
{
    match token {
        None => None,
        Some(token) => Some(token.octets()),
    }
}
