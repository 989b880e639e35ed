ghost use Rattle.std.specs.Prelude.{◌≡◌, ◌↔◌, ◌<◌, ◌≤◌, List, length, OnOk, IsOk, IsTrue};
ghost use lib.Dec.{T};
ghost use Rattle.std.specs.FinMap as map;
ghost use Rattle.std.specs.List.Sorted.{IsPartitionedBy};
ghost use Rattle.std.specs.Option.{option_map};
ghost use Rattle.ndn_tlv.specs.Element.{Field, IsElements};
ghost use Rattle.ndn_names.specs.Order.{name_cmp};
ghost use Rattle.ndn_names.specs.View.{components};
ghost use Rattle.ndn_packets.specs.FullName.{is_near};
ghost use Rattle.repo_core.specs.Objects.{answering, first_octets, number_answering, served, without_answering};
ghost use Rattle.repo_core.specs.Room.{HasAt, IsPlace};

use crate::object::Object;
use crate::row_insertion::insert_row;
use ndn_names::Name;
use ndn_tlv::Memory;
use std::alloc::Global;
use std::marker::Model;

/// The stored Data. No two stored Data have the same full name.
#[derive(Drop)]
pub struct Objects {
    // The objects in canonical order of their full names.
    rows: Vec<Object>,
}

impl Model for Objects {
    ghost use lib.Dec.{T};
    ghost use Rattle.std.specs.Prelude.{◌-◌, vec_len};
    ghost use Rattle.std.specs.Vec.{vec_capacity};
    ghost use Rattle.std.specs.FinMap as map;
    ghost use Rattle.ndn_names.specs.Order.{name_cmp};
    ghost use Rattle.repo_core.specs.Room.{Shelf, shelf_code};

    ghost Value = { Shelf };

    ghost coded = { shelf_code };

    ghost view = { λ o. record {
      table = map.from_sorted o.rows.items;
      room = vec_capacity o.rows - vec_len o.rows;
    } };

    ghost invariant = { λ o. T (map.is_sorted name_cmp o.rows.items) };
}

impl Objects {
    pub fn new(alloc: Global) -> Objects
        ensures { result.table ≡ map.empty }
    {
        Objects {
            rows: Vec::new(alloc),
        }
    }

    pub fn len(&self) -> usize
        ensures { result ≡ map.len self.now.table }
    {
        self.rows.len()
    }

    /// Returns whether both collections have the same objects.
    pub fn is_same(&self, other: &Objects) -> bool
        ensures { IsTrue result → self.now.table ≡ other.now.table }
    {
        are_same(&self.rows, &other.rows)
    }

    /// Returns the number of objects that answer an Interest with this name and this CanBePrefix
    /// flag.
    pub fn number(&self, name: Name<'_>, can_be_prefix: bool) -> usize
        ensures { result ≡ number_answering (components name.entry) can_be_prefix self.now.table }
    {
        count_of(
            candidates(&self.rows, name, can_be_prefix),
            name,
            can_be_prefix,
        )
    }

    /// Returns the octets of the object that answers an Interest with this name and this
    /// CanBePrefix flag. If several objects answer, the object with the least full name is chosen.
    /// Returns `None` if no object answers.
    pub fn served(&self, name: Name<'_>, can_be_prefix: bool) -> Option<&[u8]>
        ensures { option_map (λ o. o.now) result
            ≡ served (components name.entry) can_be_prefix self.now.table }
    {
        first_of(
            candidates(&self.rows, name, can_be_prefix),
            name,
            can_be_prefix,
        )
    }

    /// Removes the objects that answer an Interest with this name and this CanBePrefix flag.
    pub fn remove(&mut self, name: Name<'_>, can_be_prefix: bool)
        ensures table { self.new.table
            ≡ without_answering (components name.entry) can_be_prefix self.old.table }
        ensures room { self.old.room ≤ self.new.room }
    {
        self.rows
            .retain(|object| !object.answers(name, can_be_prefix));
    }

    /// Reserves memory for one more object.
    pub fn reserve(&mut self) -> Result<(), Memory>
        ensures ok { OnOk result (0 < self.new.room) }
        ensures table { self.new.table ≡ self.old.table }
        ensures more { self.old.room ≤ self.new.room }
        ensures room { 0 < self.old.room → IsOk result }
    {
        self.rows.reserve(1)?;
        Ok(())
    }

    /// Inserts an object, or replaces the object with the same full name. Memory for one more
    /// object must be reserved.
    pub fn put(&mut self, object: Object)
        requires { 0 < self.old.room }
        ensures { self.new.table ≡ map.insert self.old.table object.0 object.1 }
    {
        let at = place_of(&self.rows, object.full_name());
        if has_at(&self.rows, at, object.full_name()) {
            self.rows[at] = object;
        } else {
            insert_row(&mut self.rows, at, object);
        }
    }
}

/// Returns the index of the first object whose full name is not less than the name with the
/// TLV-VALUE `octets`, or the number of objects if there is no such object.
fn place_of(objects: &[Object], octets: &[u8]) -> usize
    requires { T (map.is_sorted name_cmp objects.now) }
    ensures { (name : List Field) → IsElements octets.now name
        → IsPlace name_cmp name objects.now result }
{
    objects.partition_point(|object| object.is_below(octets))
}

/// Returns whether there is an object at index `at` whose full name has the TLV-VALUE `octets`.
fn has_at(objects: &[Object], at: usize, octets: &[u8]) -> bool
    ensures { (name : List Field) → IsElements octets.now name
        → IsTrue result ↔ HasAt name objects.now at }
{
    match objects.get(at) {
        Some(object) => object.is(octets),
        None => false,
    }
}

/// Returns a slice with all objects that answer an Interest with this name and this CanBePrefix
/// flag. In the slice, objects that pass `is_near` come before all other objects.
fn candidates<'a>(objects: &'a [Object], name: Name<'_>, can_be_prefix: bool) -> &'a [Object]
    requires { T (map.is_sorted name_cmp objects.now) }
    ensures same { answering (components name.entry) can_be_prefix result.now
        ≡ answering (components name.entry) can_be_prefix objects.now }
    ensures near { IsPartitionedBy (λ o. is_near (components name.entry) can_be_prefix o.0)
        result.now }
{
    let start = place_of(objects, name.as_octets());
    let (_, rest) = objects.split_at(start);
    rest
}

/// Returns the number of objects in the slice that answer an Interest with this name and this
/// CanBePrefix flag. Precondition: in the slice, objects that pass `is_near` come before all other
/// objects.
fn count_of(objects: &[Object], name: Name<'_>, can_be_prefix: bool) -> usize
    requires { IsPartitionedBy (λ o. is_near (components name) can_be_prefix o.0) objects.now }
    ensures { result ≡ length (answering (components name.entry) can_be_prefix objects.now) }
{
    let mut count = 0;
    for object in objects {
        if !object.is_near(name, can_be_prefix) {
            return count;
        }
        if object.answers(name, can_be_prefix) {
            count += 1;
        }
    }
    count
}

/// Returns the octets of the first object in the slice that answers an Interest with this name and
/// this CanBePrefix flag, or `None` if no object in the slice answers. Precondition: in the slice,
/// objects that pass `is_near` come before all other objects.
fn first_of<'a>(objects: &'a [Object], name: Name<'_>, can_be_prefix: bool) -> Option<&'a [u8]>
    requires { IsPartitionedBy (λ o. is_near (components name) can_be_prefix o.0) objects.now }
    ensures { option_map (λ o. o.now) result
        ≡ first_octets (answering (components name.entry) can_be_prefix objects.now) }
{
    for object in objects {
        if !object.is_near(name, can_be_prefix) {
            return None;
        }
        if object.answers(name, can_be_prefix) {
            return Some(object.octets());
        }
    }
    None
}

/// Returns whether two lists have the same objects in the same order.
fn are_same(rows: &[Object], others: &[Object]) -> bool
    ensures { IsTrue result → rows.now ≡ others.now }
{
    if rows.len() != others.len() {
        return false;
    }
    for at in 0..rows.len() {
        if !rows[at].is_same(&others[at]) {
            return false;
        }
    }
    true
}
