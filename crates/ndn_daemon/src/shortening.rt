//! The shortening of a journal on a disk.

use crate::disk_journal::DiskJournal;
use crate::fault::{Fault, JournalFault};
use crate::options::ShorteningOptions;
use journal_shortening::{ShortenFault, shortened};
use node_core::{NodeFault, RunFault};
use std::fs::File;
use std::rt::Files;

/// Shortens the journal in a file, and prints how many whole lines the journal had, and how many of
/// these lines are kept. If the function `shortened` returns no shorter journal, the file stays as
/// it is, and the printed line says that nothing is left out.
pub fn shorten_file<R: AllocGlobal + Files<File = File> + Print>(
    rt: &R,
    options: &ShorteningOptions,
) -> Result<(), Fault> {
    let path = options.journal.as_str();
    let journal = DiskJournal::open_existing(rt, path)?;
    let octets = journal.octets(rt.alloc())?;
    match shortened(rt.alloc(), &options.repo, &octets) {
        Ok(Some(shorter)) => {
            journal.replace(rt, &shorter.text)?;
            report(rt, path, shorter.lines, shorter.kept)
        }
        Ok(None) => {
            let printed = println!(rt; "{path}: nothing is left out");
            printed.map_err(|_| Fault::Script(RunFault::Write))
        }
        Err(fault) => Err(fault_of(fault)),
    }
}

/// Prints how many whole lines the journal at this path had (`lines`), and how many of these lines
/// are kept (`kept`).
fn report<R: Print>(rt: &R, path: &str, lines: usize, kept: usize) -> Result<(), Fault> {
    let printed = println!(rt; "{path}: {lines} lines, {kept} kept");
    printed.map_err(|_| Fault::Script(RunFault::Write))
}

/// Returns the fault of the program for a fault of the shortening.
fn fault_of(fault: ShortenFault) -> Fault {
    match fault {
        ShortenFault::BadLine(line) => Fault::Journal(JournalFault::BadLine(line)),
        ShortenFault::NotJournalled(line) => Fault::Journal(JournalFault::NotJournalled(line)),
        ShortenFault::TooLong => Fault::Journal(JournalFault::ManyLines),
        ShortenFault::BadRepoPrefix => Fault::Script(RunFault::Node(NodeFault::BadRepoPrefix)),
        ShortenFault::Memory => Fault::Script(RunFault::Memory),
    }
}
