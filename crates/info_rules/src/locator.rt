//! Decides which packets a key may sign, by the key's name.

ghost use Rattle.std.specs.Prelude.{◌≡◌, ◌≤◌, ◌↔◌, ℕ, List, Some, length, option_map, IsTrue, MatchOption, MatchResult, IfOk, IfSome, IfNone, codes};
ghost use Rattle.name_patterns.specs.Grammar.{IsPattern};
ghost use Rattle.ndn_tlv.specs.Element.{Field};
ghost use Rattle.ndn_names.specs.View.{components, field_of};
ghost use Rattle.ndn_names.specs.Name.{IsPrefix};
ghost use Rattle.name_patterns.specs.Match.{Match};
ghost use Rattle.name_patterns.specs.Template.{OfGroup, part_of, expansion_of, NeedAtMost, AreThere};
ghost use Rattle.info_rules.specs.Locator.{Makes, AreMade, MakesBoth, IsHyperRelated, key_component, IsKeyOf, hierarchical_pattern, IsHierarchical, PassesLocator};

use crate::matching::{is_related, passes};
use crate::rule::{HyperRelation, LocatorTest};
use name_patterns::{Captures, Pattern, Template};
use ndn_names::component_type::GENERIC;
use ndn_names::{Component, Name, NameBuf};
use ndn_tlv::Memory;
use std::alloc::Global;

/// The value of the component `KEY`. In the name of a hierarchical key, this component follows the
/// prefix that must also be a prefix of the packet's name.
const KEY: &[u8; 3] = b"KEY";

/// The greatest number of components after `KEY` in the name of a hierarchical key. The least
/// number is 1.
const MAX_AFTER_KEY: usize = 3;

/// Whether a key meets a requirement. `Err` means that memory ran out.
pub type Passed = Result<bool, Memory>;

/// Returns whether the key called `key` meets the requirement, for a packet called `packet`. Only a
/// hyper-relation needs memory.
pub fn passes_locator(alloc: Global, test: &LocatorTest, key: Name<'_>, packet: Name<'_>) -> Passed
    ensures { MatchResult result
        (λ passed. IsTrue passed
        ↔ PassesLocator test.now (components key.entry) (components packet.entry))
        (λ _. MakesBoth test.now (components key.entry) (components packet.entry)) }
{
    match test {
        LocatorTest::Name(test) => Ok(passes(test, key)),
        LocatorTest::Hyper(hyper) => is_hyper_related(alloc, hyper, key, packet),
        LocatorTest::Hierarchical => Ok(is_hierarchical(key, packet)),
    }
}

/// Returns whether the name expanded from the key's name has the relation `hyper.relation` to the
/// name expanded from the packet's name. The result is false if one of the two names does not match
/// its pattern or expands to a name that is too long.
fn is_hyper_related(alloc: Global, hyper: &HyperRelation, key: Name<'_>, packet: Name<'_>) -> Passed
    ensures { MatchResult result
        (λ related. IsTrue related
        ↔ IsHyperRelated hyper.now (components key.entry) (components packet.entry))
        (λ _. AreMade hyper.now (components key.entry) (components packet.entry)) }
{
    let Some(of_key) = captured(&hyper.key_pattern, &hyper.key_template, key) else {
        return Ok(false);
    };
    let Some(of_packet) = captured(&hyper.packet_pattern, &hyper.packet_template, packet) else {
        return Ok(false);
    };
    let made_key = made_of(alloc, &hyper.key_template, &of_key, key)?;
    let made_packet = made_of(alloc, &hyper.packet_template, &of_packet, packet)?;
    Ok(is_related(hyper.relation, made_key.view(), made_packet.view()))
}

/// Returns the groups that the pattern captures in the name, or `None` if the pattern does not
/// match the name, or if the template expands to a name that is too long. Allocates no memory.
fn captured(pattern: &Pattern, template: &Template, name: Name<'_>) -> Option<Captures>
    requires { NeedAtMost (length pattern.now.groups) template.now }
    ensures none { IfNone result ((made : List Field)
        → ¬ Makes pattern.now template.now (components name.entry) made) }
    ensures made { IfSome result (λ captures. Makes pattern.now template.now
        (components name.entry) (expansion_of template.now captures (components name.entry))) }
    ensures there { IfSome result
        (λ captures. AreThere captures (components name.entry) template.now) }
{
    let captures = pattern.matches(name)?;
    if template.is_too_long(&captures) {
        return None;
    }
    Some(captures)
}

/// Expands the template with the groups that `captures` gives. The caller has checked that the
/// expanded name is not too long.
fn made_of(
    alloc: Global,
    template: &Template,
    captures: &Captures,
    name: Name<'_>,
) -> Result<NameBuf, Memory>
    requires { AreThere captures.now (components name) template.now }
    ensures { IfOk result
        (λ made. made ≡ expansion_of template.now captures.now (components name.entry)) }
{
    template.expand(alloc, captures, name).map_err(|_| Memory)
}

/// Returns whether `prefix_of_key` finds a prefix in the key's name, and this prefix is also a
/// prefix of the packet's name.
fn is_hierarchical(key: Name<'_>, packet: Name<'_>) -> bool
    ensures { IsTrue result ↔ IsHierarchical (components key.entry) (components packet.entry) }
{
    match prefix_of_key(key) {
        Some(prefix) => prefix.is_prefix_of(packet),
        None => false,
    }
}

/// Returns the longest prefix of the key's name that is followed by `KEY` and one to three more
/// components, or `None` if there is no such prefix.
fn prefix_of_key(key: Name<'_>) -> Option<Name<'_>>
    ensures { MatchOption result
        ((prefix : List Field) → ¬ IsKeyOf prefix (components key.entry))
        (λ found. IsKeyOf (components found) (components key.entry)
        × ((prefix : List Field) → IsKeyOf prefix (components key.entry)
        → length prefix ≤ length (components found))) }
{
    for following in 1..=MAX_AFTER_KEY {
        let Some(place) = key.len().checked_sub(following + 1) else {
            return None;
        };
        if is_key_component(key.component(place)) {
            return Some(key.prefix(place));
        }
    }
    None
}

/// Returns whether the component is present and is `KEY`.
fn is_key_component(component: Option<Component<'_>>) -> bool
    ensures { IsTrue result ↔ (option_map field_of component.entry ≡ Some key_component) }
{
    match component {
        Some(component) => component.kind == GENERIC && component.value == KEY.as_slice(),
        None => false,
    }
}

/// Law: a key is hierarchical for a packet if and only if the key's name matches the pattern
/// `^(<>*)<KEY><>{1,3}$` and group 1 captures a prefix of the packet's name.
pub fn hierarchical_keys_match_a_pattern()
    ensures { (key packet : List Field) → IsHierarchical key packet
        ↔ ((places : List (ℕ × ℕ)) × Match hierarchical_pattern key places
        × IsPrefix (part_of places key (OfGroup 1)) packet) }
{}

/// Law: the text `^(<>*)<KEY><>{1,3}$` spells the pattern for the names of hierarchical keys.
pub fn hierarchical_text_spells_its_pattern()
    ensures { IsPattern (codes "^(<>*)<KEY><>{1,3}$") hierarchical_pattern }
{}
