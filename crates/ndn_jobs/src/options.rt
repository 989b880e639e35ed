//! The values of a subcommand's options, found by the ids of the options. A positional argument
//! counts as an option here.
ghost use Rattle.std.specs.Prelude.{◌≡◌, Some, None, option_map, MatchResult};
ghost use Rattle.ndn_names.specs.ReadsAs.{ReadsAs};
ghost use Rattle.ndn_jobs.specs.Value.{IsNumber, IsHops, IsPeriod, IsPort, AreOctets, IsPacket, IsNonce, IsTokenText, IsUsage, Reads, ReadsInMemory};
ghost use Rattle.ndn_jobs.specs.Endpoint.{IsEndpoint};
ghost use Rattle.ndn_jobs.specs.Options.{rows_in, value_at, Has, MayHave, IsPath, IsFlag, flag_at, SpellsStrategy};

use crate::fault::{ToolFault, Usage};
use crate::short_form::strategy_uri;
use crate::token::Token;
use crate::value::{
    parse_endpoint, parse_hops, parse_name, parse_nonce, parse_number, parse_octets, parse_packet,
    parse_period, parse_port, parse_strategy, parse_token,
};
use clap::ArgMatches;
use ndn_names::NameBuf;
use std::alloc::Global;
use std::net::SocketAddr;

/// Returns the value of an option, or `None` if the option is not given.
pub fn value<'a>(options: &ArgMatches<'a>, id: &str) -> Option<&'a str>
    ensures { option_map (λ value. value.now) result ≡ value_at (rows_in options.now) id.now }
{
    options.get_str(id)
}

/// Returns the value of a required option, or the fault `BadValue` if the option is not given.
pub fn required<'a>(options: &ArgMatches<'a>, id: &'static str) -> Result<&'a str, ToolFault>
    ensures { MatchResult result (λ value. value_at (rows_in options.now) id.now ≡ Some value.now)
        (λ fault. IsUsage fault × (value_at (rows_in options.now) id.now ≡ None)) }
{
    match value(options, id) {
        Some(value) => Ok(value),
        None => Err(ToolFault::Usage(Usage::BadValue {
            place: id,
            wanted: "a value",
        })),
    }
}

/// Returns the name that a required option spells.
pub fn required_name(
    alloc: Global,
    options: &ArgMatches<'_>,
    id: &'static str,
) -> Result<NameBuf, ToolFault>
    ensures { ReadsInMemory (Has (value_at (rows_in options.now) id.now) ReadsAs) result }
{
    parse_name(alloc, id, required(options, id)?)
}

/// Returns the octets that a required option spells.
pub fn required_octets(
    alloc: Global,
    options: &ArgMatches<'_>,
    id: &'static str,
) -> Result<Vec<u8>, ToolFault>
    ensures { ReadsInMemory (Has (value_at (rows_in options.now) id.now) AreOctets) result }
{
    parse_octets(alloc, id, required(options, id)?)
}

/// Returns the packet that a required option spells, or `None` for a dash.
pub fn packet(
    alloc: Global,
    options: &ArgMatches<'_>,
    id: &'static str,
) -> Result<Option<Vec<u8>>, ToolFault>
    ensures { ReadsInMemory (Has (value_at (rows_in options.now) id.now) IsPacket) result }
{
    parse_packet(alloc, id, required(options, id)?)
}

/// Returns the path that a required option gives.
pub fn required_path(
    alloc: Global,
    options: &ArgMatches<'_>,
    id: &'static str,
) -> Result<String, ToolFault>
    ensures { ReadsInMemory (Has (value_at (rows_in options.now) id.now) IsPath) result }
{
    Ok(String::from_str(alloc, required(options, id)?)?)
}

/// Returns the 4 octets of the Nonce that a required option spells.
pub fn required_nonce(options: &ArgMatches<'_>, id: &'static str) -> Result<[u8; 4], ToolFault>
    ensures { Reads (Has (value_at (rows_in options.now) id.now) IsNonce) result }
{
    parse_nonce(id, required(options, id)?)
}

/// Returns the number that a required option spells.
pub fn required_number(options: &ArgMatches<'_>, id: &'static str) -> Result<u64, ToolFault>
    ensures { Reads (Has (value_at (rows_in options.now) id.now) IsNumber) result }
{
    parse_number(id, required(options, id)?)
}

/// Returns the address and the port that a required option spells.
pub fn required_endpoint(
    options: &ArgMatches<'_>,
    id: &'static str,
) -> Result<SocketAddr, ToolFault>
    ensures { Reads (Has (value_at (rows_in options.now) id.now) IsEndpoint) result }
{
    parse_endpoint(id, required(options, id)?)
}

/// Returns whether a flag is given.
pub fn flag(options: &ArgMatches<'_>, id: &'static str) -> bool
    ensures { IsFlag (flag_at (rows_in options.now) id.now) result }
{
    options.get_flag(id)
}

/// Returns the number that an option spells, or `None` if the option is not given.
pub fn number(options: &ArgMatches<'_>, id: &'static str) -> Result<Option<u64>, ToolFault>
    ensures { Reads (MayHave (value_at (rows_in options.now) id.now) IsNumber) result }
{
    match value(options, id) {
        None => Ok(None),
        Some(value) => Ok(Some(parse_number(id, value)?)),
    }
}

/// Returns the number of hops that an option spells, or `None` if the option is not given.
pub fn hops(options: &ArgMatches<'_>, id: &'static str) -> Result<Option<u8>, ToolFault>
    ensures { Reads (MayHave (value_at (rows_in options.now) id.now) IsHops) result }
{
    match value(options, id) {
        None => Ok(None),
        Some(value) => Ok(Some(parse_hops(id, value)?)),
    }
}

/// Returns the number of milliseconds that an option spells, or `None` if the option is not given.
pub fn period(options: &ArgMatches<'_>, id: &'static str) -> Result<Option<u32>, ToolFault>
    ensures { Reads (MayHave (value_at (rows_in options.now) id.now) IsPeriod) result }
{
    match value(options, id) {
        None => Ok(None),
        Some(value) => Ok(Some(parse_period(id, value)?)),
    }
}

/// Returns the port that an option spells, or `None` if the option is not given.
pub fn port(options: &ArgMatches<'_>, id: &'static str) -> Result<Option<u16>, ToolFault>
    ensures { Reads (MayHave (value_at (rows_in options.now) id.now) IsPort) result }
{
    match value(options, id) {
        None => Ok(None),
        Some(value) => Ok(Some(parse_port(id, value)?)),
    }
}

/// Returns the address and the port that an option spells, or `None` if the option is not given.
pub fn endpoint(options: &ArgMatches<'_>, id: &'static str) -> Result<Option<SocketAddr>, ToolFault>
    ensures { Reads (MayHave (value_at (rows_in options.now) id.now) IsEndpoint) result }
{
    match value(options, id) {
        None => Ok(None),
        Some(value) => Ok(Some(parse_endpoint(id, value)?)),
    }
}

/// Returns the octets that an option spells, or `None` if the option is not given.
pub fn octets(
    alloc: Global,
    options: &ArgMatches<'_>,
    id: &'static str,
) -> Result<Option<Vec<u8>>, ToolFault>
    ensures { ReadsInMemory (MayHave (value_at (rows_in options.now) id.now) AreOctets) result }
{
    match value(options, id) {
        None => Ok(None),
        Some(value) => Ok(Some(parse_octets(alloc, id, value)?)),
    }
}

/// Returns the PIT token that an option spells, or `None` if the option is not given.
pub fn token(
    alloc: Global,
    options: &ArgMatches<'_>,
    id: &'static str,
) -> Result<Option<Token>, ToolFault>
    ensures { ReadsInMemory (MayHave (value_at (rows_in options.now) id.now) IsTokenText) result }
{
    match value(options, id) {
        None => Ok(None),
        Some(value) => Ok(Some(parse_token(alloc, id, value)?)),
    }
}

/// Returns the name that an option spells, or `None` if the option is not given.
pub fn name(
    alloc: Global,
    options: &ArgMatches<'_>,
    id: &'static str,
) -> Result<Option<NameBuf>, ToolFault>
    ensures { ReadsInMemory (MayHave (value_at (rows_in options.now) id.now) ReadsAs) result }
{
    match value(options, id) {
        None => Ok(None),
        Some(value) => Ok(Some(parse_name(alloc, id, value)?)),
    }
}

/// Returns the name of the strategy that an option spells, or `None` if the option is not given.
/// The option's value is a URI, or the word `best-route` or `multicast`.
pub fn strategy(
    alloc: Global,
    options: &ArgMatches<'_>,
    id: &'static str,
) -> Result<Option<NameBuf>, ToolFault>
    ensures { ReadsInMemory
        (MayHave (value_at (rows_in options.now) id.now) SpellsStrategy) result }
{
    match value(options, id) {
        None => Ok(None),
        Some(value) => Ok(Some(parse_strategy(alloc, id, strategy_uri(value))?)),
    }
}

/// Returns the 4 octets of the Nonce that an option spells, or `None` if the option is not given.
pub fn nonce(options: &ArgMatches<'_>, id: &'static str) -> Result<Option<[u8; 4]>, ToolFault>
    ensures { Reads (MayHave (value_at (rows_in options.now) id.now) IsNonce) result }
{
    match value(options, id) {
        None => Ok(None),
        Some(value) => Ok(Some(parse_nonce(id, value)?)),
    }
}

/// Returns the path that an option gives, or `None` if the option is not given.
pub fn path(
    alloc: Global,
    options: &ArgMatches<'_>,
    id: &'static str,
) -> Result<Option<String>, ToolFault>
    ensures { ReadsInMemory (MayHave (value_at (rows_in options.now) id.now) IsPath) result }
{
    match value(options, id) {
        None => Ok(None),
        Some(value) => Ok(Some(String::from_str(alloc, value)?)),
    }
}
