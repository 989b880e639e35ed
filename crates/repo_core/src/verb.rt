ghost use Rattle.std.specs.Prelude.{◌≡◌};
ghost use Rattle.repo_core.specs.Commands.{verb_named};

/// The verb of a command. A Data matches a command if the Data answers an Interest with the Name
/// and the CanBePrefix flag in the command's parameters.
#[derive(Clone, Copy, Debug, PartialEq, Eq)]
pub enum Verb {
    /// `insert`: requests a Data that matches the command, and stores the Data if it arrives before
    /// the want (pending insert) expires. Requests nothing if a matching Data is stored already, or
    /// if the reply has the status 503 (repository full).
    Insert,
    /// `delete`: removes the stored Data that match the command, and the want with the Name and
    /// the CanBePrefix flag in the command's parameters.
    Delete,
    /// `check`: counts the stored Data that match the command. If no stored Data matches, reports
    /// whether there is a want with the Name and the CanBePrefix flag in the command's parameters.
    Check,
}

impl Verb {
    /// Returns the verb with this word, for example `Insert` for `insert`, or `None` if there is
    /// none.
    pub(crate) fn named(word: &[u8]) -> Option<Verb>
        ensures { result ≡ verb_named word.now }
    {
        if word == b"insert".as_slice() {
            return Some(Verb::Insert);
        }
        if word == b"delete".as_slice() {
            return Some(Verb::Delete);
        }
        if word == b"check".as_slice() {
            return Some(Verb::Check);
        }
        None
    }
}
