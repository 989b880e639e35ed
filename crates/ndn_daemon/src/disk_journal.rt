//! A journal in a file of the operating system.
ghost use Rattle.std.specs.Prelude.{None};

use crate::fault::{Fault, JournalFault};
use crate::files::unread_journal;
use crate::stored_journal::StoredJournal;
use journal::{FileFault, JournalFile, ReplayFault, Replayed, are_last_rules, replay};
use node_core::{Node, RunFault};
use node_ports::Renewal;
use std::alloc::Global;
use std::fs::{File, OpenOptions, TryLockError};
use std::io::{BufReader, ErrorKind, Read, Seek, Write};
use std::os::unix::fs::{MetadataExt, OpenOptionsExt};
use std::rt::Files;
use std::{fs, io};

/// The permissions of a new journal: only its owner may read and write it, since it contains the
/// octets of key files.
const OWNER_ALONE: u32 = 0o600;

/// A journal in a file of the operating system. The file is locked, so that only one program uses
/// it at a time.
#[derive(Drop)]
pub struct DiskJournal<'a> {
    path: &'a str,
    file: File,
}

impl<'a> DiskJournal<'a> {
    /// Opens and locks the journal at this path. Creates the journal if it does not exist.
    pub fn open<R: AllocGlobal + Files<File = File>>(
        rt: &R,
        path: &'a str,
    ) -> Result<DiskJournal<'a>, Fault> {
        match open_to_append(rt, path) {
            Ok(file) => locked(rt, path, file),
            Err(error) => Err(unread_journal(rt.alloc(), path, &error)),
        }
    }

    /// Opens and locks an existing journal at this path, so that the journal can be read and
    /// replaced.
    pub fn open_existing<R: AllocGlobal + Files<File = File>>(
        rt: &R,
        path: &'a str,
    ) -> Result<DiskJournal<'a>, Fault> {
        match File::open(rt, path) {
            Ok(file) => locked(rt, path, file),
            Err(error) => Err(unread_journal(rt.alloc(), path, &error)),
        }
    }

    /// Returns all octets of the file.
    pub fn octets(&self, alloc: Global) -> Result<Vec<u8>, Fault> {
        let mut octets = Vec::new(alloc);
        match self.reader(alloc)?.read_to_end(&mut octets) {
            Ok(_) => Ok(octets),
            Err(error) => Err(unread_journal(alloc, self.path, &error)),
        }
    }

    /// Replaces the file of the journal by a new file with these octets. The new file is not
    /// locked. If the call fails, the path of the journal leads to the old file or to the new file.
    pub fn replace<R: AllocGlobal + Files<File = File>>(
        &self,
        rt: &R,
        octets: &[u8],
    ) -> Result<(), Fault> {
        let beside = format!(in rt.alloc(); "{}.short", self.path)?;
        match put_in_place(rt, &beside, self.path, octets) {
            Ok(()) => Ok(()),
            Err(_) => {
                // The file at the path `beside` is removed, since this file may contain keys.
                let _removed = fs::remove_file(rt, &beside);
                Err(Fault::Journal(JournalFault::Unshortened))
            }
        }
    }

    /// Returns a reader of the whole file.
    fn reader(&self, alloc: Global) -> Result<BufReader<File>, Fault> {
        match reader_of(alloc, &self.file) {
            Ok(reader) => Ok(reader),
            Err(error) => Err(unread_journal(alloc, self.path, &error)),
        }
    }

    /// Returns the fault of the program for this `ReplayFault`, which occurred in the journal.
    fn fault_of(&self, alloc: Global, fault: ReplayFault) -> Fault {
        match fault {
            ReplayFault::BadLine(line) => Fault::Journal(JournalFault::BadLine(line)),
            ReplayFault::Memory => Fault::Script(RunFault::Memory),
            ReplayFault::Read => {
                let error = io::Error::from(ErrorKind::Other);
                unread_journal(alloc, self.path, &error)
            }
        }
    }
}

/// Returns a reader of the whole file. The reader has a cloned handle, which shares the lock.
fn reader_of(alloc: Global, file: &File) -> io::Result<BufReader<File>> {
    let mut again = file.try_clone()?;
    again.rewind()?;
    BufReader::new(alloc, again)
}

impl<'a> JournalFile for DiskJournal<'a> {
    // The content of a file of the operating system is not known to the contracts.
    ghost synced = { λ _. None };

    fn append(&mut self, octets: &[u8]) -> Result<(), FileFault> {
        if self.file.write_all(octets).is_err() {
            return Err(FileFault::Failed);
        }
        match self.file.sync_data() {
            Ok(()) => Ok(()),
            Err(_) => Err(FileFault::Failed),
        }
    }
}

impl<'a> StoredJournal for DiskJournal<'a> {
    fn has_last(&mut self, alloc: Global, renewal: &Renewal) -> Result<bool, Fault> {
        let mut reader = self.reader(alloc)?;
        let (rules, keys) = (renewal.rule_octets(), renewal.key_octets());
        match are_last_rules(alloc, &mut reader, rules, keys) {
            Ok(are) => Ok(are),
            Err(fault) => Err(self.fault_of(alloc, fault)),
        }
    }

    fn replay(&mut self, alloc: Global, node: &mut Node) -> Result<Replayed, Fault> {
        let mut reader = self.reader(alloc)?;
        let done = match replay(alloc, node, &mut reader) {
            Ok(done) => done,
            Err(fault) => return Err(self.fault_of(alloc, fault)),
        };
        if done.cut > 0
            && let Err(error) = self.file.set_len(done.whole)
        {
            return Err(unread_journal(alloc, self.path, &error));
        }
        Ok(done)
    }
}

/// Opens a file for reading and appending. Creates the file if it does not exist. Synchronizes the
/// file's directory to disk, so that a new file survives a crash.
fn open_to_append<R: Files<File = File>>(rt: &R, path: &str) -> io::Result<File> {
    let mut options = OpenOptions::new();
    options
        .read(true)
        .append(true)
        .create(true)
        .mode(OWNER_ALONE);
    let file = options.open(rt, path)?;
    File::open(rt, folder_of(path))?.sync_all()?;
    Ok(file)
}

/// Writes a new file with these octets at the path `beside`, and then renames it to `path`, which
/// is in the same directory. After a crash, `path` leads to the old file or to the whole new file.
fn put_in_place<R: Files<File = File>>(
    rt: &R,
    beside: &str,
    path: &str,
    octets: &[u8],
) -> io::Result<()> {
    // A program that crashed may have left a file at `beside`.
    let _removed = fs::remove_file(rt, beside);
    let mut options = OpenOptions::new();
    options.write(true).create_new(true).mode(OWNER_ALONE);
    let mut file = options.open(rt, beside)?;
    file.write_all(octets)?;
    file.sync_all()?;
    fs::rename(rt, beside, path)?;
    File::open(rt, folder_of(path))?.sync_all()
}

/// Returns the path of the directory that contains the file at `path`.
fn folder_of(path: &str) -> &str {
    match path.rsplit_once('/') {
        Some(("", _)) => "/",
        Some((folder, _)) => folder,
        None => ".",
    }
}

/// Locks the file. Fails if the file cannot be locked, for example because another program holds
/// the lock, or if the path no longer leads to the file. Another program may have replaced the file
/// at the path before this file was locked.
fn locked<'a, R: AllocGlobal + Files<File = File>>(
    rt: &R,
    path: &'a str,
    file: File,
) -> Result<DiskJournal<'a>, Fault> {
    match file.try_lock() {
        Ok(()) if is_at(rt, path, &file) => Ok(DiskJournal { path, file }),
        Ok(()) | Err(TryLockError::WouldBlock) => Err(Fault::Journal(JournalFault::Locked)),
        Err(TryLockError::Error(error)) => Err(unread_journal(rt.alloc(), path, &error)),
    }
}

/// Returns whether the path leads to this file.
fn is_at<R: Files<File = File>>(rt: &R, path: &str, file: &File) -> bool {
    let (Ok(there), Ok(here)) = (fs::metadata(rt, path), file.metadata()) else {
        return false;
    };
    there.dev() == here.dev() && there.ino() == here.ino()
}
