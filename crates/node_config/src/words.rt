//! Texts that spell endpoints, FaceUris, numbers and words.

ghost use Rattle.std.specs.Prelude.{ℕ, MatchOption};
ghost use Rattle.node_config.specs.Endpoint.{IsEndpoint, IsPort};
ghost use Rattle.node_config.specs.FaceUri.{IsFaceUri, IsUdp4, IsUdp6};
ghost use Rattle.node_config.specs.Words.{IsCapacity, IsConsent, IsLevel, IsScope, IsSeconds, IsTurns};

use crate::config::{LogLevel, Scope};
use crate::value::Value;
use std::net::{IpAddr, Ipv4Addr, SocketAddr, SocketAddrV4, SocketAddrV6};

/// Reads a port from 1 to 65,535 in decimal digits. Leading zeros are allowed.
fn port_of(digits: &str) -> Option<u16>
    ensures { MatchOption result ((n : ℕ) → IsPort digits.now n → ⊥) (IsPort digits.now) }
{
    // `parse` would accept a plus sign before the digits.
    if !digits.starts_with('+')
        && let Ok(port) = digits.parse::<u16>()
        && port > 0
    {
        return Some(port);
    }
    None
}

impl Value for SocketAddr {
    ghost spells = { IsEndpoint };

    /// Reads an address and a port. A port alone stands for the address 127.0.0.1 with this port.
    fn of_text(text: &str) -> Option<SocketAddr> {
        if let Some(port) = port_of(text) {
            return Some(SocketAddr::new(IpAddr::V4(Ipv4Addr::LOCALHOST), port));
        }
        let Ok(endpoint) = text.parse::<SocketAddr>() else {
            return None;
        };
        if endpoint.port() == 0 {
            return None;
        }
        Some(endpoint)
    }
}

/// Reads the address and the port after `udp4://`.
fn udp4_of(text: &str) -> Option<SocketAddrV4>
    ensures { MatchOption result ((x : SocketAddrV4) → IsUdp4 text.now x → ⊥) (IsUdp4 text.now) }
{
    let Ok(endpoint) = text.parse::<SocketAddrV4>() else {
        return None;
    };
    if endpoint.port() == 0 {
        return None;
    }
    Some(endpoint)
}

/// Reads the address in brackets and the port after `udp6://`. A scope identifier is refused.
fn udp6_of(text: &str) -> Option<SocketAddrV6>
    ensures { MatchOption result ((x : SocketAddrV6) → IsUdp6 text.now x → ⊥) (IsUdp6 text.now) }
{
    let Ok(endpoint) = text.parse::<SocketAddrV6>() else {
        return None;
    };
    if endpoint.port() == 0 || endpoint.scope_id() != 0 {
        return None;
    }
    Some(endpoint)
}

/// Reads a FaceUri of a UDP face, as NFD writes it: `udp4://192.0.2.1:6363` or
/// `udp6://[2001:db8::1]:6363` (NFD wiki, "FaceUri").
pub fn face_uri_of(text: &str) -> Option<SocketAddr>
    ensures { MatchOption result ((x : SocketAddr) → IsFaceUri text.now x → ⊥)
        (IsFaceUri text.now) }
{
    if let Some(rest) = text.strip_prefix("udp4://") {
        return match udp4_of(rest) {
            Some(endpoint) => Some(SocketAddr::V4(endpoint)),
            None => None,
        };
    }
    if let Some(rest) = text.strip_prefix("udp6://") {
        return match udp6_of(rest) {
            Some(endpoint) => Some(SocketAddr::V6(endpoint)),
            None => None,
        };
    }
    None
}

/// A capacity of the cache: a number of Data from 1 to 65,536.
#[derive(Clone, Copy)]
pub struct Capacity(pub u32);

impl Value for Capacity {
    ghost spells = { IsCapacity };

    fn of_text(digits: &str) -> Option<Capacity> {
        if !digits.starts_with('+')
            && let Ok(number) = digits.parse::<u32>()
            && number > 0
            && number <= 65_536
        {
            return Some(Capacity(number));
        }
        None
    }
}

/// A time in seconds, at least 1.
#[derive(Clone, Copy)]
pub struct Seconds(pub u32);

impl Value for Seconds {
    ghost spells = { IsSeconds };

    fn of_text(digits: &str) -> Option<Seconds> {
        if !digits.starts_with('+')
            && let Ok(number) = digits.parse::<u32>()
            && number > 0
        {
            return Some(Seconds(number));
        }
        None
    }
}

/// A number of turns.
#[derive(Clone, Copy)]
pub struct Turns(pub u64);

impl Value for Turns {
    ghost spells = { IsTurns };

    fn of_text(digits: &str) -> Option<Turns> {
        if !digits.starts_with('+')
            && let Ok(number) = digits.parse::<u64>()
        {
            return Some(Turns(number));
        }
        None
    }
}

impl Value for LogLevel {
    ghost spells = { IsLevel };

    fn of_text(text: &str) -> Option<LogLevel> {
        match text {
            "none" => Some(LogLevel::None),
            "events" => Some(LogLevel::Events),
            "all" => Some(LogLevel::All),
            _ => None,
        }
    }
}

impl Value for Scope {
    ghost spells = { IsScope };

    fn of_text(text: &str) -> Option<Scope> {
        match text {
            "local" => Some(Scope::Local),
            "far" => Some(Scope::Far),
            _ => None,
        }
    }
}

/// The word `yes` or `no`.
#[derive(Clone, Copy)]
pub struct Consent(pub bool);

impl Value for Consent {
    ghost spells = { IsConsent };

    fn of_text(text: &str) -> Option<Consent> {
        match text {
            "yes" => Some(Consent(true)),
            "no" => Some(Consent(false)),
            _ => None,
        }
    }
}
