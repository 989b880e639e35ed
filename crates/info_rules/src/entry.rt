//! Entries of rule files.

/// A key of a rule file, with its value and whether it has a block. The entries of the block follow
/// this entry and have a greater depth. The block ends before the next entry whose depth is not
/// greater than that of this entry, or with the last entry if there is no such entry.
#[derive(Debug, Drop)]
pub struct Entry {
    /// The number of blocks around the key.
    pub depth: usize,
    /// The line of the key, counted from 1.
    pub line: u32,
    pub key: String,
    pub value: Option<String>,
    pub has_block: bool,
}
