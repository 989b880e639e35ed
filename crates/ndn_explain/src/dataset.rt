//! The entries of a dataset of routes or of strategies, as lines of text or as rows of a table.

ghost use Rattle.std.specs.Prelude.{◌≡◌, ◌++◌, OnOk, Ok, flat_map};
ghost use Rattle.std.specs.Option.{option_map};
ghost use Rattle.ndn_tlv.specs.Reading.{elements_of};
ghost use Rattle.ndn_tlv.specs.Fields.{first_of};
ghost use Rattle.ndn_explain.specs.Dataset.{labels_of, AreLabels, short_strategy, choice_line, number_word, hop_words, hop_line, entry_name, named_entry, entry_lines, dataset_lines};

use crate::meaning::{Form, put_form};
use ndn_packets::command_types::{COST, ENTRY, FACE_ID, NEXT_HOP, STRATEGY};
use ndn_packets::types::NAME;
use ndn_tlv::{Memory, first_element, first_field};
use std::alloc::Global;

/// How the entries of a dataset are laid out.
#[derive(Clone, Copy, Debug, PartialEq, Eq)]
pub enum Layout {
    /// Lines in which words describe the values.
    Lines,
    /// Rows of a table, with tabs between the columns.
    Table,
}

/// For each value in a line, the text that is printed before the value. In the line of a route, the
/// text in `route` precedes the name. In the line of a strategy choice, the text in `choice`
/// precedes the name.
#[derive(Clone, Copy)]
struct Labels {
    route: &'static str,
    face: &'static str,
    cost: &'static str,
    choice: &'static str,
    strategy: &'static str,
}

/// Appends the lines of the entries in a Content, or nothing if the Content has no entries. The
/// first malformed element and all octets after this element are ignored. On `Memory`, some of the
/// lines may have been appended.
pub fn put_entries(
    alloc: Global,
    text: &mut Vec<u8>,
    layout: Layout,
    content: &[u8],
) -> Result<(), Memory>
    ensures { OnOk result (text.new.items ≡ text.old.items ++ dataset_lines layout content.now) }
{
    let mut rest = content;
    while !rest.is_empty() {
        let Ok((element, after)) = first_element(rest) else {
            return Ok(());
        };
        put_entry(alloc, text, layout, element.kind, element.value)?;
        rest = after;
    }
    Ok(())
}

/// Appends the lines of an element if the element is an entry. Appends nothing for any other
/// element.
fn put_entry(
    alloc: Global,
    text: &mut Vec<u8>,
    layout: Layout,
    kind: u32,
    value: &[u8],
) -> Result<(), Memory>
    ensures { OnOk result (text.new.items
        ≡ text.old.items ++ entry_lines layout (Ok (kind, value.now))) }
{
    if kind != ENTRY {
        return Ok(());
    }
    let mut name = Vec::new(alloc);
    put_entry_name(alloc, &mut name, first_field(value, NAME))?;
    put_choice(alloc, text, layout, &name, first_field(value, STRATEGY))?;
    put_hops(alloc, text, layout, &name, value)
}

fn put_entry_name(alloc: Global, text: &mut Vec<u8>, name: Option<&[u8]>) -> Result<(), Memory>
    ensures { OnOk result (text.new.items ≡ text.old.items
        ++ entry_name (option_map (λ n. n.now) name.entry)) }
{
    match name {
        None => Ok(text.push(b'-')?),
        Some(name) => put_form(alloc, text, Form::Name, name),
    }
}

/// Appends the line of a strategy choice, or nothing if `strategy` is `None`.
fn put_choice(
    alloc: Global,
    text: &mut Vec<u8>,
    layout: Layout,
    name: &[u8],
    strategy: Option<&[u8]>,
) -> Result<(), Memory>
    ensures { OnOk result (text.new.items ≡ text.old.items
        ++ choice_line layout name.now (option_map (λ s. s.now) strategy.entry)) }
{
    let Some(strategy) = strategy else {
        return Ok(());
    };
    let mut uri = Vec::new(alloc);
    put_form(alloc, &mut uri, Form::Strategy, strategy)?;
    let labels = labels_of(layout);
    text.extend_from_slice(labels.choice.as_bytes())?;
    text.extend_from_slice(name)?;
    text.extend_from_slice(labels.strategy.as_bytes())?;
    text.extend_from_slice(short_strategy(&uri))?;
    text.push(b'\n')?;
    Ok(())
}

/// Returns the short name of the strategy with the URI `uri`: `best-route` for
/// `/localhost/nfd/strategy/best-route`, `multicast` for `/localhost/nfd/strategy/multicast`, and
/// the whole URI for any other URI.
fn short_strategy(uri: &[u8]) -> &[u8]
    ensures { result.now ≡ short_strategy uri.now }
{
    if uri == b"/localhost/nfd/strategy/best-route".as_slice() {
        return b"best-route";
    }
    if uri == b"/localhost/nfd/strategy/multicast".as_slice() {
        return b"multicast";
    }
    uri
}

/// Appends a line for each next hop in the fields `entry`. `name` is the text of the entry's name.
fn put_hops(
    alloc: Global,
    text: &mut Vec<u8>,
    layout: Layout,
    name: &[u8],
    entry: &[u8],
) -> Result<(), Memory>
    ensures { OnOk result (text.new.items ≡ text.old.items
        ++ flat_map (hop_line layout name.now) (elements_of entry.now)) }
{
    let mut rest = entry;
    while !rest.is_empty() {
        let Ok((element, after)) = first_element(rest) else {
            return Ok(());
        };
        put_hop(alloc, text, layout, name, element.kind, element.value)?;
        rest = after;
    }
    Ok(())
}

/// Appends the line of an element if the element is a next hop. Appends nothing for any other
/// element.
fn put_hop(
    alloc: Global,
    text: &mut Vec<u8>,
    layout: Layout,
    name: &[u8],
    kind: u32,
    value: &[u8],
) -> Result<(), Memory>
    ensures { OnOk result (text.new.items
        ≡ text.old.items ++ hop_line layout name.now (Ok (kind, value.now))) }
{
    if kind != NEXT_HOP {
        return Ok(());
    }
    text.extend_from_slice(labels_of(layout).route.as_bytes())?;
    text.extend_from_slice(name)?;
    put_hop_words(alloc, text, layout, value)?;
    text.push(b'\n')?;
    Ok(())
}

fn put_hop_words(
    alloc: Global,
    text: &mut Vec<u8>,
    layout: Layout,
    fields: &[u8],
) -> Result<(), Memory>
    ensures { OnOk result (text.new.items
        ≡ text.old.items ++ hop_words layout (elements_of fields.now)) }
{
    let labels = labels_of(layout);
    put_number_word(alloc, text, labels.face, first_field(fields, FACE_ID))?;
    put_number_word(alloc, text, labels.cost, first_field(fields, COST))
}

fn put_number_word(
    alloc: Global,
    text: &mut Vec<u8>,
    label: &str,
    number: Option<&[u8]>,
) -> Result<(), Memory>
    ensures { OnOk result (text.new.items ≡ text.old.items
        ++ number_word label.now (option_map (λ n. n.now) number.entry)) }
{
    let Some(number) = number else {
        return Ok(());
    };
    text.extend_from_slice(label.as_bytes())?;
    put_form(alloc, text, Form::Number, number)
}

fn labels_of(layout: Layout) -> Labels
    ensures { AreLabels (labels_of layout) result }
{
    match layout {
        Layout::Lines => Labels {
            route: "route ",
            face: " face ",
            cost: " cost ",
            choice: "strategy ",
            strategy: " ",
        },
        Layout::Table => Labels {
            route: "",
            face: "\t",
            cost: "\t",
            choice: "",
            strategy: "\t",
        },
    }
}
