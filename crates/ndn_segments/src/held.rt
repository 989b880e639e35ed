//! The contents that wait until earlier segments have come.

ghost use Rattle.std.specs.Prelude.{◌≡◌, map, option_map};
ghost use Rattle.ndn_segments.specs.Held.{Places};

use ndn_tlv::Memory;
use std::alloc::Global;
use std::collections::VecDeque;
use std::marker::Model;

/// A list with one place for each segment from some number on. A place has the content of its
/// segment, or is a gap.
#[derive(Drop)]
pub struct Held {
    places: VecDeque<Option<Vec<u8>>>,
}

impl Model for Held {
    ghost Value = { Places };

    ghost view = { λ h. map (option_map (λ content. content.items)) h.places.items };
}

impl Held {
    ghost use Rattle.std.specs.Prelude.{◌≡◌, ◌+◌, ◌-◌, ◌<◌, ◌++◌, ◌^◌, [], length, take, drop, option_map, vec_len, IfOk, OnOk, OnErr, OnSome};
    ghost use Rattle.std.specs.List.{concat};
    ghost use Rattle.ndn_segments.specs.Held.{content_at, placed, in_order};

    pub fn new(alloc: Global) -> Held
        ensures { result ≡ [] }
    {
        Held {
            places: VecDeque::new(alloc),
        }
    }

    /// Returns the content at an index, or `None` for a gap and after the end of the list.
    pub fn content_at(&self, index: usize) -> Option<&[u8]>
        ensures exact { option_map (λ content. content.now) result ≡ content_at self.now index }
        ensures small { OnSome result (index < 2 ^ 64 - 1) }
    {
        let Some(place) = self.places.get(index) else {
            return None;
        };
        match place {
            Some(content) => Some(content),
            None => None,
        }
    }

    /// Copies a content to an index. If the list is too short, gaps are appended first. If memory
    /// runs out, nothing changes.
    pub fn place(&mut self, alloc: Global, index: usize, content: &[u8]) -> Result<(), Memory>
        requires { index + 1 < 2 ^ 64 }
        ensures ok { OnOk result (self.new ≡ placed self.old index content.now) }
        ensures err { OnErr result (self.new ≡ self.old) }
    {
        let copy = Vec::from_slice(alloc, content)?;
        if self.places.len() <= index {
            self.places.resize(index + 1, None)?;
        }
        self.places[index] = Some(copy);
        Ok(())
    }

    /// Appends `content` and the contents from index 1 to the first gap after it. Returns the
    /// number of appended contents. If memory runs out, nothing is appended.
    pub fn put_first(&self, content: &[u8], out: &mut Vec<u8>) -> Result<usize, Memory>
        ensures ok { IfOk result (λ count.
            let contents = in_order (placed self.now 0 content.now) in
            (count ≡ length contents) × (out.new.items ≡ out.old.items ++ concat contents)) }
        ensures err { OnErr result (out.new.items ≡ out.old.items) }
    {
        let len = out.len();
        let done = self.put_all(content, out);
        if done.is_err() {
            out.truncate(len);
        }
        done
    }

    /// Appends what `put_first` appends. If memory runs out, some octets may have been appended.
    fn put_all(&self, content: &[u8], out: &mut Vec<u8>) -> Result<usize, Memory>
        ensures begins { take (vec_len out.old) out.new.items ≡ out.old.items }
        ensures ok { IfOk result (λ count.
            let contents = in_order (placed self.now 0 content.now) in
            (count ≡ length contents) × (out.new.items ≡ out.old.items ++ concat contents)) }
    {
        out.extend_from_slice(content)?;
        let mut count = 1;
        while let Some(held) = self.content_at(count) {
            out.extend_from_slice(held)?;
            count += 1;
        }
        Ok(count)
    }

    /// Removes the first `count` places, or all if there are fewer.
    pub fn remove_first(&mut self, count: usize)
        ensures { self.new ≡ drop count self.old }
    {
        for _ in 0..count {
            self.places.pop_front();
        }
    }
}
