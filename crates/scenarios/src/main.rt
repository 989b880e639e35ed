//! Plays scenarios on new nodes, and reports which scenarios have the expected answers.
//!
//! The arguments are the paths of files of scenarios, which `docs/SCENARIOS.md` describes. A file
//! may use the packets and files that earlier files define. The program writes one line for each
//! scenario to standard output: `NAME: passed`, or the first line of the answers that differs. The
//! last line has the numbers of scenarios that passed and that differ. The exit status is 0 if all
//! scenarios passed, 1 if one differs, and 2 if the scenarios cannot be read and played.
#![tactic(auto)]

mod differ;
mod file;
mod play;
mod report;
mod scenario;
mod words;

use crate::file::{LineFault, Reading};
use crate::play::PlayFault;
use crate::report::{Counts, Unplayed, put_reports};
use crate::scenario::Scenario;
use limited_reads::read_within;
use node_core::put_all;
use std::alloc::Global;
use std::env::Env;
use std::fs::File;
use std::process::ExitCode;
use std::rt::Files;
use std::{env, io, str};
use thiserror::Error;

/// The greatest length of a file of scenarios, in octets.
const MAX_FILE: u32 = 8_388_608;

/// Why the scenarios cannot be read and played.
#[derive(Debug, Error, Drop)]
enum Fault {
    #[error("{path}:{line}: {fault}\n")]
    Line {
        path: String,
        line: u64,
        fault: LineFault,
    },
    #[error("give the paths of files of scenarios\n")]
    NoFile,
    #[error("{0} cannot be read\n")]
    Unread(String),
    #[error("scenario {0}: its rules, keys, prefix and cache make no node\n")]
    Parts(String),
    #[error("the arguments cannot be read, the reports cannot be written, or memory ran out\n")]
    Failed,
}

fn main(rt: HostRuntime) -> ExitCode {
    match run(&rt) {
        Ok(counts) if counts.differ == 0 => ExitCode::SUCCESS,
        Ok(_) => ExitCode::from(1),
        Err(fault) => {
            // If the fault cannot be written to standard error, only the exit status reports it.
            let _printed = rt.eprint(fault);
            ExitCode::from(2)
        }
    }
}

/// Reads and plays the scenarios of the files that the arguments name.
fn run<R: Env + AllocGlobal + Files<File = File> + Print>(rt: &R) -> Result<Counts, Fault> {
    let mut reading = Reading::new(rt.alloc());
    read_files(rt, &mut reading)?;
    let mut text = Vec::new(rt.alloc());
    let counts = match put_reports(rt.alloc(), &mut text, &reading.scenarios) {
        Ok(counts) => counts,
        Err(unplayed) => return Err(fault_of(rt.alloc(), &reading.scenarios, unplayed)),
    };
    put_all(&mut io::writer(rt), text.as_slice()).map_err(|_| Fault::Failed)?;
    Ok(counts)
}

/// Returns the fault of scenarios that could not be played. If the parts of a scenario are wrong,
/// the fault has the scenario's name.
fn fault_of(alloc: Global, scenarios: &[Scenario], unplayed: Unplayed) -> Fault {
    match scenarios.get(unplayed.place as usize) {
        Some(scenario) if unplayed.fault == PlayFault::Parts => {
            name_of(alloc, scenario).map_or(Fault::Failed, Fault::Parts)
        }
        _ => Fault::Failed,
    }
}

fn name_of(alloc: Global, scenario: &Scenario) -> Option<String> {
    let name = str::from_utf8(scenario.name.as_slice()).ok()?;
    String::from_str(alloc, name).ok()
}

/// Reads the files that the arguments name.
fn read_files<R: Env + AllocGlobal + Files<File = File>>(
    rt: &R,
    reading: &mut Reading,
) -> Result<(), Fault> {
    let Ok(paths) = env::args(rt) else {
        return Err(Fault::Failed);
    };
    let mut is_given = false;
    for path in paths.skip(1) {
        read_file(rt, reading, path)?;
        is_given = true;
    }
    if is_given { Ok(()) } else { Err(Fault::NoFile) }
}

/// Reads the file at a path.
fn read_file<R: AllocGlobal + Files<File = File>>(
    rt: &R,
    reading: &mut Reading,
    path: String,
) -> Result<(), Fault> {
    let Ok(file) = File::open(rt, path.as_str()) else {
        return Err(Fault::Unread(path));
    };
    let Ok(Some(text)) = read_within(rt.alloc(), file, MAX_FILE) else {
        return Err(Fault::Unread(path));
    };
    match reading.read(&text) {
        Ok(()) => Ok(()),
        Err((line, fault)) => Err(Fault::Line { path, line, fault }),
    }
}
