//! Puts a million names into a map. Removes each name after 64 further names were put in, and
//! finally removes the last 64 names. Counts the names in the map once for each insertion: after
//! the removal that follows the insertion, or after the insertion itself if no removal follows.
//! Prints the greatest of these counts, and how many names are in the map at the end. By the map's
//! invariant, each node of the map has a value or a child, except the node of a name for which
//! `prepare` was called. So a map with no names has no node if `prepare` was never called.
#![tactic(auto)]

use name_trie::NameMap;
use ndn_names::NameBuf;
use ndn_names::component_type::GENERIC;
use ndn_tlv::Memory;
use std::alloc::Global;
use std::io;

/// The number of names.
const NAMES: u64 = 1_000_000;

/// The number of names that stay in the map. They are the names that were put in last.
const STANDING: u64 = 64;

/// Returns the name for a number. The first component is `number / 4096`, and the second component
/// is `number % 4096`, each in 8 octets.
fn name_of(alloc: Global, number: u64) -> Result<NameBuf, Memory> {
    let mut name = NameBuf::new(alloc);
    for part in [number / 4096, number % 4096] {
        name.append(GENERIC, &part.to_be_bytes())
            .map_err(|_| Memory)?;
    }
    Ok(name)
}

/// Puts the name for `number` into the map. If `number - STANDING` is not negative, removes the
/// name for `number - STANDING`. Returns the number of names that are then in the map.
fn put_and_remove(alloc: Global, names: &mut NameMap<u64>, number: u64) -> Result<usize, Memory> {
    let name = name_of(alloc, number)?;
    if names.len() < usize::MAX {
        names.put(name.view(), number)?;
    }
    if let Some(old) = number.checked_sub(STANDING) {
        names.remove(name_of(alloc, old)?.view());
    }
    Ok(names.len())
}

/// Puts all names into the map and removes them. Returns the greatest number that a call of
/// `put_and_remove` returned, and the number of names that are in the map at the end.
fn rounds(alloc: Global) -> Result<(usize, usize), Memory> {
    let mut names = NameMap::new(alloc);
    let mut most = 0;
    for number in 0..NAMES {
        most = most.max(put_and_remove(alloc, &mut names, number)?);
    }
    for number in NAMES - STANDING..NAMES {
        names.remove(name_of(alloc, number)?.view());
    }
    Ok((most, names.len()))
}

fn main(rt: HostRuntime) -> io::Result<()> {
    match rounds(rt.alloc()) {
        Ok((most, left)) => {
            println!(rt; "{NAMES} names came, {most} stood at most, {left} are left")
        }
        Err(Memory) => println!(rt; "out of memory"),
    }
}
