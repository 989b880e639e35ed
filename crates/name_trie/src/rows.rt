ghost use Rattle.std.specs.Prelude.{◌≡◌, ◌<◌, ◌≤◌, [], length, insert, remove, vec_len, vec_capacity, OnErr, OnOk};
ghost use Rattle.name_trie.specs.declared.rows.Rows.TheVariants.{One};
ghost use Rattle.std.specs.Mem.{FitsInMemory};
ghost use Rattle.name_trie.specs.Rows.{items_of};

use ndn_tlv::Memory;
use std::alloc::Global;
use std::{array, mem};

/// A list of rows. The variant `One` stores its row inline, since most lists have at most one row.
#[derive(Drop)]
pub enum Rows<T> {
    Empty,
    One(T),
    Many(Vec<T>),
}

impl<T> Rows<T> {
    /// Returns the rows as a slice.
    #[inline]
    pub fn as_slice(&self) -> &[T]
        requires { FitsInMemory T.row }
        ensures { result.now ≡ items_of self.now }
    {
        match self {
            Rows::Empty => &[],
            Rows::One(row) => array::from_ref(row),
            Rows::Many(rows) => rows,
        }
    }
}

impl<T: Drop> Rows<T> {
    /// Returns the rows as a vector. The row of the variant `One` is moved into the vector `room`.
    fn into_vec(self, room: Vec<T>) -> Vec<T>
        requires empty { room.items ≡ [] }
        requires places { 2 ≤ vec_capacity room }
        ensures items { result.items ≡ items_of self }
        ensures one { (row : T) → self ≡ One row → vec_len result < vec_capacity result }
    {
        let mut room = room;
        match self {
            Rows::Empty => room,
            Rows::One(row) => {
                room.push_reserved(row);
                room
            }
            Rows::Many(rows) => rows,
        }
    }

    /// Inserts a row at index `at`.
    pub fn insert(&mut self, alloc: Global, at: usize, row: T) -> Result<(), Memory>
        requires { at ≤ length (items_of self.old) }
        ensures ok { OnOk result (items_of self.new ≡ insert (items_of self.old) at row) }
        ensures err { OnErr result (items_of self.new ≡ items_of self.old) }
    {
        match self {
            Rows::Empty => *self = Rows::One(row),
            Rows::One(_) => {
                let room = Vec::with_capacity(alloc, 2)?;
                let mut rows = mem::replace(self, Rows::Empty).into_vec(room);
                rows.insert(at, row)?;
                *self = Rows::Many(rows);
            }
            Rows::Many(rows) => rows.insert(at, row)?,
        }
        Ok(())
    }

    /// Removes the row at index `at`.
    pub fn remove(&mut self, at: usize)
        requires { at < length (items_of self.old) }
        ensures { items_of self.new ≡ remove (items_of self.old) at }
    {
        match self {
            Rows::Empty => {}
            Rows::One(_) => *self = Rows::Empty,
            Rows::Many(rows) => {
                rows.remove(at);
            }
        }
    }
}
