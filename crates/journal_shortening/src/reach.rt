use ndn_tlv::Memory;
use std::alloc::Global;

/// The lines that are known to be needed. Lines are counted from 0. A link is a pair of lines: the
/// first line of the pair needs the second.
#[derive(Drop)]
pub struct Reach {
    /// For each line, whether it is known to be needed.
    needed: Vec<bool>,
    /// The needed lines whose links have not been followed.
    open: Vec<u32>,
    /// All lines before the line with this number are needed.
    floor: u32,
}

impl Reach {
    /// Returns a `Reach` for `count` lines, none of which is needed yet.
    pub fn new(alloc: Global, count: u32) -> Result<Reach, Memory> {
        Ok(Reach {
            needed: vec![in alloc; false; count as usize]?,
            open: Vec::new(alloc),
            floor: 0,
        })
    }

    /// Returns for each line whether it is needed.
    pub fn into_needed(self) -> Vec<bool> {
        self.needed
    }

    /// Notes that a line is needed.
    pub fn mark(&mut self, line: u32) -> Result<(), Memory> {
        if let Some(needed) = self.needed.get_mut(line as usize)
            && !*needed
        {
            *needed = true;
            self.open.push(line)?;
        }
        Ok(())
    }

    /// Notes that all lines before `line` are needed.
    fn mark_before(&mut self, line: u32) -> Result<(), Memory> {
        for before in self.floor..line {
            self.mark(before)?;
        }
        self.floor = self.floor.max(line);
        Ok(())
    }

    /// Marks the lines that `line` needs according to `links`. The links are in ascending order.
    fn follow(&mut self, links: &[(u32, u32)], line: u32) -> Result<(), Memory> {
        let start = links.partition_point(|link| link.0 < line);
        for link in links.iter().skip(start) {
            if link.0 != line {
                return Ok(());
            }
            self.mark(link.1)?;
        }
        Ok(())
    }

    /// Marks all lines that a marked line needs, directly or through other lines. Each line in
    /// `floors` needs all lines before it. `links` and `floors` are in ascending order.
    pub fn close(&mut self, links: &[(u32, u32)], floors: &[u32]) -> Result<(), Memory> {
        for _ in 0..self.needed.len() {
            let Some(line) = self.open.pop() else {
                return Ok(());
            };
            self.follow(links, line)?;
            if floors.binary_search(&line).is_ok() {
                self.mark_before(line)?;
            }
        }
        Ok(())
    }
}
