//! Nodes that a file configures.
ghost use Rattle.std.specs.Prelude.{◌≡◌, ◌≤◌, IfOk, IfSome, MatchResult, Ok, length};
ghost use Rattle.node_config.specs.File.{FileOf};
ghost use Rattle.node_config.specs.Plain.{plain_config};
ghost use Rattle.ndn_daemon.specs.Configuration.{AreConfigured, IsConfigFault, IsConfigFileFault, level_of};

use crate::fault::Fault;
use crate::files::unread_config;
use crate::options::Options;
use crate::udp_options::{LogLevel, UdpOptions};
use limited_reads::read_within;
use node_config::{Config, ConfigFault, ConfigFaultKind, Listen, folder_of, placed_in};
use node_core::{MAX_FACES, RunFault};
use std::alloc::Global;
use std::fs::File;
use std::io::Read;
use std::rt::Files;

/// The greatest length of a configuration file, in octets.
const MAX_CONFIG_FILE: u32 = 65_536;

/// Reads the configuration file at this path, and returns the options of the node that the file
/// configures. Paths in the file that do not begin with `/` are taken from the folder of the file.
pub fn read_configuration<R: AllocGlobal + Files>(
    rt: &R,
    path: &str,
) -> Result<(Options, UdpOptions), Fault>
    ensures { IfOk result (λ options. length options.1.peers.items ≤ MAX_FACES) }
{
    let config = match File::open(rt, path) {
        Ok(file) => read_config_file(rt.alloc(), path, file)?,
        Err(error) => return Err(unread_config(rt.alloc(), path, &error)),
    };
    options_of(rt.alloc(), folder_of(path), config)
}

/// Reads the octets of a configuration file.
fn read_config(alloc: Global, octets: &[u8]) -> Result<Config, Fault>
    ensures read { MatchResult result (λ config. FileOf octets.now (Ok (plain_config config)))
        (IsConfigFault octets.now) }
    ensures few { IfOk result (λ config. length config.peers.items ≤ MAX_FACES) }
{
    match Config::read(alloc, octets) {
        Ok(config) => Ok(config),
        Err(fault) => Err(Fault::Config(fault)),
    }
}

/// Reads an open configuration file. `path` is the path of the file. A file of more than 65,536
/// octets has a TooLarge fault at line 0, even if it is not UTF-8.
pub fn read_config_file<R: Read + Drop>(alloc: Global, path: &str, file: R) -> Result<Config, Fault>
    // This clause states the result if the content of the file is known.
    ensures known { IfSome (R.remaining file) (λ octets. MatchResult result
        (λ config. FileOf octets (Ok (plain_config config)))
        (IsConfigFileFault path.now octets)) }
    ensures few { IfOk result (λ config. length config.peers.items ≤ MAX_FACES) }
{
    match read_within(alloc, file, MAX_CONFIG_FILE) {
        Ok(Some(octets)) => {
            let config = read_config(alloc, &octets)?;
            Ok(config)
        }
        Ok(None) => Err(Fault::Config(ConfigFault {
            line: 0,
            kind: ConfigFaultKind::TooLarge,
        })),
        Err(error) => Err(unread_config(alloc, path, &error)),
    }
}

fn level_of(level: node_config::LogLevel) -> LogLevel
    ensures { result ≡ level_of level }
{
    match level {
        node_config::LogLevel::None => LogLevel::None,
        node_config::LogLevel::Events => LogLevel::Events,
        node_config::LogLevel::All => LogLevel::All,
    }
}

/// Returns the options of the node that the configuration describes. Paths that do not begin with
/// `/` are taken from the folder. Such a node does not listen for WebSocket connections.
pub fn options_of(
    alloc: Global,
    folder: &str,
    config: Config,
) -> Result<(Options, UdpOptions), Fault>
    // The only fault is that memory ran out.
    ensures { MatchResult result
        (λ options. AreConfigured folder.now (plain_config config) options.0 options.1)
        (λ fault. fault ≡ Fault.Script RunFault.Memory) }
{
    let (endpoints, local) = (config.endpoints(alloc)?, config.count_local());
    let Config {
        listen,
        files,
        prefix,
        limits,
        log,
        peers: _,
    } = config;
    let Listen {
        udp,
        tcp,
        unix,
        strangers,
    } = listen;
    let node = Options {
        rules: placed_in(alloc, folder, files.rules)?,
        keys: placed_in(alloc, folder, files.keys)?,
        repo: prefix,
        cache: limits.cache,
    };
    let options = UdpOptions {
        listen: udp,
        turns: limits.turns,
        peers: endpoints,
        local: local as u64,
        idle: limits.idle,
        open: strangers,
        log: level_of(log.level),
        journal: placed_in(alloc, folder, files.journal)?,
        quiet: !log.answers,
        tcp,
        unix: placed_in(alloc, folder, unix)?,
        websocket: None,
        origins: Vec::new(alloc),
    };
    Ok((node, options))
}
