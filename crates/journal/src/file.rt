ghost use Rattle.std.specs.Prelude.{ℕ, List, Option, OnErr, OnOk};
ghost use Rattle.std.specs.Io.KnownBytes.{Appends};
ghost use Rattle.node_core.specs.Script.Ending.{AppendsFront};

use thiserror::Error;

/// The journal could not be written.
#[derive(Clone, Copy, Debug, PartialEq, Eq, Error)]
pub enum FileFault {
    #[error("the journal cannot be written")]
    Failed,
}

/// The file that contains a journal. The file contains the octets of key files, which are secrets.
pub trait JournalFile {
    // The octets of the file that survive a crash, or `None` if they are not known. For a file of
    // the operating system, the octets are not known, and no contract states the content of the
    // file.
    ghost synced: { Self → Option (List ℕ) };

    /// Appends octets, and succeeds only when they survive a crash. On failure, a prefix of the
    /// octets may have been appended.
    fn append(&mut self, octets: &[u8]) -> Result<(), FileFault>
        ensures done { OnOk result (Appends (synced self.old) (synced self.new) octets.now) }
        ensures cut { OnErr result (AppendsFront (synced self.old) (synced self.new) octets.now) };
}
