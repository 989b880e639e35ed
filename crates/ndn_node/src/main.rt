//! A Named Data Networking node: it runs a script, serves a UDP port, checks a configuration, or
//! shortens a journal.
#![tactic(auto)]

ghost use Rattle.std.specs.Prelude.{◌≤◌, length};

use ndn_daemon::{
    Fault, MachineClock, Options, Request, RuleFiles, UdpOptions, read_configuration, report_fault,
    request_of, run_on_port, shorten_file,
};
use node_core::{Node, NodeParts, RunFault, run_script};
use node_ports::Moments;
use std::env::Env;
use std::fs::File;
use std::io::Input;
use std::net::Net;
use std::process::ExitCode;
use std::rt::Files;
use std::time::Clock;
use std::{env, io};

fn main(rt: HostRuntime) -> ExitCode {
    match run(&rt) {
        Ok(status) => ExitCode::from(status),
        Err(fault) => {
            let status = fault.exit_status();
            // If the fault cannot be written to standard error, only the exit status reports the
            // fault.
            let _printed = rt.eprint(fault);
            ExitCode::from(status)
        }
    }
}

/// Runs the request of the command line. Returns the exit status: 0, or that of a fault that is
/// reported already.
fn run<R: Clock + Env + AllocGlobal + Eprint + Files<File = File> + Input + Net + Print>(
    rt: &R,
) -> Result<u8, Fault> {
    let arguments = arguments_of(rt)?;
    match request_of(rt.alloc(), arguments.as_slice())? {
        Request::Help(help) => {
            rt.print(help).map_err(|_| Fault::Script(RunFault::Write))?;
            Ok(0)
        }
        Request::Script(options) => {
            script(rt, options)?;
            Ok(0)
        }
        Request::Udp(node, options) => udp(rt, node, &options),
        Request::Run(path) => {
            let (node, options) = read_configuration(rt, &path)?;
            udp(rt, node, &options)
        }
        Request::Check(path) => {
            check(rt, &path)?;
            Ok(0)
        }
        Request::Shorten(options) => {
            shorten_file(rt, &options)?;
            Ok(0)
        }
    }
}

fn arguments_of<R: Env + AllocGlobal>(rt: &R) -> Result<Vec<String>, Fault> {
    match env::args(rt) {
        Ok(arguments) => arguments
            .collect(rt.alloc())
            .map_err(|_| Fault::Script(RunFault::Memory)),
        Err(error) if error.kind() == io::ErrorKind::OutOfMemory => {
            Err(Fault::Script(RunFault::Memory))
        }
        Err(_) => Err(Fault::NotText),
    }
}

/// Runs the script that is on standard input, and writes the answers to standard output.
fn script<R: AllocGlobal + Files + Input + Print>(rt: &R, options: Options) -> Result<(), Fault> {
    let (parts, _files) = parts_of(rt, options)?;
    run_script(rt.alloc(), &mut rt.reader(), &mut io::writer(rt), parts).map_err(Fault::Script)
}

/// Runs the node on its port. Writes the answers to standard output, unless the node is quiet. A
/// fault that ends the turns of the node is reported with its time.
fn udp<R: AllocGlobal + Clock + Eprint + Files<File = File> + Net + Print>(
    rt: &R,
    node: Options,
    options: &UdpOptions,
) -> Result<u8, Fault>
    requires { length options.now.peers.items ≤ 64 }
{
    let (parts, files) = parts_of(rt, node)?;
    if let Some(warning) = options.warning() {
        // If the warning cannot be written to standard error, the node starts without it.
        let _printed = eprintln!(rt; "warning: {warning}");
    }
    match run_on_port(rt, parts, MachineClock::new(rt), files, options) {
        Ok(()) => Ok(0),
        Err(fault) if fault.ends_turns() => {
            report_fault(rt, MachineClock::new(rt).now(), &fault);
            Ok(fault.exit_status())
        }
        Err(fault) => Err(fault),
    }
}

/// Reads the configuration file, and the files that it names, and writes to standard output how many
/// peers, rules and keys there are.
fn check<R: AllocGlobal + Files + Print>(rt: &R, path: &str) -> Result<(), Fault> {
    let (node, options) = read_configuration(rt, path)?;
    let (parts, mut files) = parts_of(rt, node)?;
    if options.journal.is_some() {
        files.journal();
        let _read = files.read()?;
    }
    let (rules, keys) = (parts.rules.len(), parts.keys.len());
    let _node = Node::new(rt.alloc(), parts).map_err(|fault| Fault::Script(RunFault::Node(fault)))?;
    let peers = options.peers.len();
    println!(rt; "{path}: peers {peers}, rules {rules}, keys {keys}").map_err(|_| Fault::Script(
        RunFault::Write,
    ))
}

/// Reads the rule file and the key file that the options name. Returns the parts of a node that has
/// the rules and keys of these files. Also returns these two files, as `RuleFiles`.
fn parts_of<R: AllocGlobal + Files>(
    rt: &R,
    options: Options,
) -> Result<(NodeParts, RuleFiles<'_, R>), Fault> {
    let files = RuleFiles::new(rt, options.rules, options.keys);
    let (rules, keys, _octets) = files.read()?.into_parts();
    let parts = NodeParts {
        rules,
        keys,
        repo: options.repo,
        cache: options.cache,
    };
    Ok((parts, files))
}
