//! The table of the keys that are known in each kind of block of a rule file.

use crate::table::Takes::{Inner, Value};
use crate::table::Times::{AnyNumber, Once, UpTo};
use crate::value_kind::ValueKind::{
    self, AnchorType, CheckerType, Id, NameWord, PacketKind, Pattern, Relation, SignatureType,
    Template, Uri,
};

/// What a key must have: a value or a block.
#[derive(Clone, Copy)]
pub enum Takes {
    Value(ValueKind),
    /// A block.
    Inner,
}

/// How many times a key may be given in its block.
#[derive(Clone, Copy)]
pub enum Times {
    Once,
    UpTo(usize),
    AnyNumber,
}

/// A key that is known in a block: the word of the key, what the key must have, and how many times
/// the key may be given.
#[derive(Clone, Copy)]
pub struct Form(pub &'static str, pub Takes, pub Times);

/// A kind of block in a rule file.
#[derive(Clone, Copy)]
pub enum Block {
    /// The whole file, whose keys are outside all blocks.
    File,
    Anchor,
    Rule,
    Filter,
    /// A checker that is not hierarchical. Only such a checker may have a key locator.
    Customized,
    Hierarchical,
    Locator,
    Hyper,
}

impl Block {
    ghost use Rattle.std.specs.Prelude.{◌≡◌, map};
    ghost use Rattle.info_rules.specs.Table.{table, is_closed};
    ghost use Rattle.info_rules.specs.Shown.{form_of, block_kind_of};

    /// Returns the keys that the table has for the block.
    #[tactic(auto, unfolding(crate::specs::Table::table))]
    pub fn forms(self) -> &'static [Form]
        ensures { map form_of result.now ≡ table (block_kind_of self) }
    {
        match self {
            Block::File => &[
                Form("rule", Inner, UpTo(256)),
                Form("trust-anchor", Inner, AnyNumber),
            ],
            Block::Anchor => &[Form("type", Value(AnchorType), Once)],
            Block::Rule => &[
                Form("id", Value(Id), Once),
                Form("for", Value(PacketKind), Once),
                Form("filter", Inner, UpTo(16)),
                Form("checker", Inner, UpTo(16)),
            ],
            Block::Filter => &[
                Form("type", Value(NameWord), Once),
                Form("name", Value(Uri), Once),
                Form("relation", Value(Relation), Once),
                Form("regex", Value(Pattern), Once),
            ],
            Block::Customized => &[
                Form("type", Value(CheckerType), Once),
                Form("sig-type", Value(SignatureType), Once),
                Form("key-locator", Inner, Once),
            ],
            Block::Hierarchical => &[
                Form("type", Value(CheckerType), Once),
                Form("sig-type", Value(SignatureType), Once),
            ],
            Block::Locator => &[
                Form("type", Value(NameWord), Once),
                Form("name", Value(Uri), Once),
                Form("relation", Value(Relation), Once),
                Form("regex", Value(Pattern), Once),
                Form("hyper-relation", Inner, Once),
            ],
            Block::Hyper => &[
                Form("k-regex", Value(Pattern), Once),
                Form("k-expand", Value(Template), Once),
                Form("h-relation", Value(Relation), Once),
                Form("p-regex", Value(Pattern), Once),
                Form("p-expand", Value(Template), Once),
            ],
        }
    }

    /// Returns whether the block allows no keys except those in the table.
    pub fn is_closed(self) -> bool
        ensures { result ≡ is_closed (block_kind_of self) }
    {
        !matches!(self, Block::Anchor)
    }
}
