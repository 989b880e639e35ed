//! The entries of a rule file's text.

use crate::entry::Entry;
use crate::keys::Keys;
use std::marker::Model;

/// The entries of a rule file, in the order of the text.
#[derive(Debug, Drop)]
pub struct InfoTree {
    pub(crate) entries: Vec<Entry>,
}

impl Model for InfoTree {
    ghost use Rattle.std.specs.Prelude.{List, map};
    ghost use Rattle.info_rules.specs.Tree.{PlainEntry};
    ghost use Rattle.info_rules.specs.Shown.{entry_of};

    ghost Value = { List PlainEntry };

    ghost view = { λ tree. map entry_of tree.entries.items };
}

impl InfoTree {
    ghost use Rattle.std.specs.Prelude.{◌≡◌};
    ghost use Rattle.info_rules.specs.Tree.{blocks_of};
    ghost use Rattle.info_rules.specs.Shown.{keys_of};

    /// Returns the keys outside all blocks.
    pub fn keys(&self) -> Keys<'_>
        ensures { keys_of result ≡ blocks_of 0 self.now }
    {
        Keys {
            depth: 0,
            entries: &self.entries,
        }
    }
}
