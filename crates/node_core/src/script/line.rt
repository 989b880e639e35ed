ghost use Rattle.std.specs.Prelude.{◌≡◌, ◌∷◌, ◌++◌, List, codes, IfSome, IfNone, IfOk};
ghost use Rattle.key_files.specs.KeyFile.{NamedKey};
ghost use Rattle.info_rules.specs.Rule.{PlainRule};
ghost use Rattle.forwarder.specs.Event.{PlainEvent, plain_owned};
ghost use Rattle.node_core.specs.Script.Line.{LineSpells, LineIs, SpellsKeys, SpellsRules};

use crate::files::read_rules;
use crate::script::word::{cut, octets_of, parse_decimal, scope_of, three_words};
use forwarder::{Event, OwnedEvent, RulesAndKeys};
use info_rules::{Rules, RulesFaultKind};
use key_files::{KeyBook, KeyFault};
use ndn_tlv::Memory;
use std::alloc::Global;

/// The greatest length of a line in octets, without its LF.
pub const LONGEST_LINE: usize = 20_000;

/// The meaning of a line of a script.
#[derive(Drop)]
pub enum Line {
    /// An empty line or a comment.
    Skipped,
    Event(OwnedEvent),
    /// A line that cannot be in a script: it has more than 20,000 octets, or it is neither skipped
    /// nor an event.
    Bad,
}

/// Reads a line of a script. The LF at the end of the line is not part of `line`.
pub fn line_of(alloc: Global, line: &[u8]) -> Result<Line, Memory>
    ensures { IfOk result (λ said. LineIs said line.now) }
{
    if line.len() > LONGEST_LINE {
        return Ok(Line::Bad);
    }
    if line.is_empty() || line[0] == b'#' {
        return Ok(Line::Skipped);
    }
    match event_of(alloc, line)? {
        Some(event) => Ok(Line::Event(event)),
        None => Ok(Line::Bad),
    }
}

fn event_of(alloc: Global, line: &[u8]) -> Result<Option<OwnedEvent>, Memory>
    ensures found { IfOk result
        (λ read. IfSome read (λ event. LineSpells (plain_owned event) line.now)) }
    ensures none { IfOk result
        (λ read. IfNone read ((event : PlainEvent) → LineSpells event line.now → ⊥)) }
{
    let Some((kind, text)) = cut(line, b' ') else {
        return Ok(None);
    };
    if kind == b"in".as_slice() {
        return packet(alloc, text);
    }
    if kind == b"up".as_slice() {
        return Ok(face_up(text));
    }
    if kind == b"down".as_slice() {
        return Ok(face_down(text));
    }
    if kind == b"tick".as_slice() {
        return Ok(tick(text));
    }
    if kind == b"rules".as_slice() {
        return new_rules(alloc, text);
    }
    Ok(None)
}

fn face_up(text: &[u8]) -> Option<OwnedEvent>
    ensures found { IfSome result
        (λ event. LineSpells (plain_owned event) (codes "up" ++ (32 ∷ text.now))) }
    ensures none { IfNone result
        ((event : PlainEvent) → LineSpells event (codes "up" ++ (32 ∷ text.now)) → ⊥) }
{
    let (face, scope, now) = three_words(text)?;
    let face = parse_decimal(face)?;
    let scope = scope_of(scope)?;
    let now = parse_decimal(now)?;
    Some(Event::FaceUp { face, scope, now })
}

fn face_down(text: &[u8]) -> Option<OwnedEvent>
    ensures found { IfSome result
        (λ event. LineSpells (plain_owned event) (codes "down" ++ (32 ∷ text.now))) }
    ensures none { IfNone result
        ((event : PlainEvent) → LineSpells event (codes "down" ++ (32 ∷ text.now)) → ⊥) }
{
    let (face, now) = cut(text, b' ')?;
    let face = parse_decimal(face)?;
    let now = parse_decimal(now)?;
    Some(Event::FaceDown { face, now })
}

fn tick(text: &[u8]) -> Option<OwnedEvent>
    ensures found { IfSome result
        (λ event. LineSpells (plain_owned event) (codes "tick" ++ (32 ∷ text.now))) }
    ensures none { IfNone result
        ((event : PlainEvent) → LineSpells event (codes "tick" ++ (32 ∷ text.now)) → ⊥) }
{
    let now = parse_decimal(text)?;
    Some(Event::Tick { now })
}

fn packet(alloc: Global, text: &[u8]) -> Result<Option<OwnedEvent>, Memory>
    ensures found { IfOk result
        (λ read. IfSome read
        (λ event. LineSpells (plain_owned event) (codes "in" ++ (32 ∷ text.now)))) }
    ensures none { IfOk result
        (λ read. IfNone read
        ((event : PlainEvent) → LineSpells event (codes "in" ++ (32 ∷ text.now)) → ⊥)) }
{
    let Some((face, now, word)) = three_words(text) else {
        return Ok(None);
    };
    let Some(face) = parse_decimal(face) else {
        return Ok(None);
    };
    let Some(now) = parse_decimal(now) else {
        return Ok(None);
    };
    match octets_of(alloc, word)? {
        Some(octets) => Ok(Some(Event::Packet { face, now, octets })),
        None => Ok(None),
    }
}

fn new_rules(alloc: Global, text: &[u8]) -> Result<Option<OwnedEvent>, Memory>
    ensures found { IfOk result
        (λ read. IfSome read
        (λ event. LineSpells (plain_owned event) (codes "rules" ++ (32 ∷ text.now)))) }
    ensures none { IfOk result
        (λ read. IfNone read
        ((event : PlainEvent) → LineSpells event (codes "rules" ++ (32 ∷ text.now)) → ⊥)) }
{
    let Some((now, rules, keys)) = three_words(text) else {
        return Ok(None);
    };
    let Some(now) = parse_decimal(now) else {
        return Ok(None);
    };
    let Some(rules) = rules_of(alloc, rules)? else {
        return Ok(None);
    };
    match keys_of(alloc, keys)? {
        Some(keys) => Ok(Some(Event::NewRules {
            rules: RulesAndKeys { rules, keys },
            now,
        })),
        None => Ok(None),
    }
}

/// Reads the rule file whose octets the word encodes. Returns `None` if the word does not encode
/// octets or these octets are not a valid rule file.
fn rules_of(alloc: Global, word: &[u8]) -> Result<Option<Rules>, Memory>
    ensures found { IfOk result (λ read. IfSome read (λ rules. SpellsRules rules word.now)) }
    ensures none { IfOk result
        (λ read. IfNone read ((rules : List PlainRule) → SpellsRules rules word.now → ⊥)) }
{
    let Some(octets) = octets_of(alloc, word)? else {
        return Ok(None);
    };
    match read_rules(alloc, octets.as_slice()) {
        Ok(rules) => Ok(Some(rules)),
        Err(fault) => match fault.kind {
            RulesFaultKind::Memory => Err(Memory),
            _ => Ok(None),
        },
    }
}

/// Reads the key file whose octets the word encodes. Returns `None` if the word does not encode
/// octets or these octets are not a valid key file.
fn keys_of(alloc: Global, word: &[u8]) -> Result<Option<KeyBook>, Memory>
    ensures found { IfOk result (λ read. IfSome read (λ keys. SpellsKeys keys word.now)) }
    ensures none { IfOk result
        (λ read. IfNone read ((keys : List NamedKey) → SpellsKeys keys word.now → ⊥)) }
{
    let Some(octets) = octets_of(alloc, word)? else {
        return Ok(None);
    };
    match KeyBook::read_octets(alloc, octets.as_slice()) {
        Ok(keys) => Ok(Some(keys)),
        Err(fault) => match fault {
            KeyFault::Memory => Err(Memory),
            _ => Ok(None),
        },
    }
}
