//! Tests of ports that give new rules, and of the first events after a restart.
ghost use Rattle.std.specs.Prelude.{⊤};

use crate::turns::node;
use key_files::KeyBook;
use ndn_daemon::{Fault, RuleSource, WatchedPorts};
use node_core::{Event, Node, RunFault, read_rules};
use node_ports::{FileOctets, MemoryPorts, Ports, Renewal, RestartedPorts};
use std::alloc::Global;

/// A source that gives new rules once.
#[derive(Drop)]
pub struct Once {
    pub renewal: Option<Renewal>,
}

impl RuleSource for Once {
    ghost renews = { λ _ _ _. ⊤ };

    ghost present = { λ _ _. ⊤ };

    ghost rests = { λ _. tt };

    ghost goes_on = { λ _ _ _ _ _ _ _. tt };

    fn renewed(&mut self) -> Option<Renewal> {
        self.renewal.take()
    }

    fn current(&mut self) -> Result<Renewal, Fault> {
        self.renewal.take().ok_or(Fault::Script(RunFault::Memory))
    }
}

/// Returns the rules and keys in the octets of a rule file and of a key file.
fn renewal_of(alloc: Global, rules: Vec<u8>, keys: Vec<u8>) -> Option<Renewal> {
    let read = read_rules(alloc, &rules).ok()?;
    let book = KeyBook::read_octets(alloc, &keys).ok()?;
    Some(Renewal::new(read, book, FileOctets { rules, keys }))
}

/// Returns the renewal that an empty rule file and an empty key file give.
pub fn no_rules(alloc: Global) -> Option<Renewal> {
    renewal_of(alloc, Vec::new(alloc), Vec::new(alloc))
}

/// Returns ports that give a packet of three octets at each of these times.
fn packets_at(alloc: Global, moments: &[u64]) -> Option<MemoryPorts> {
    let mut arrivals = Vec::new(alloc);
    for now in moments {
        let packet = Event::Packet {
            face: 1,
            now: *now,
            octets: Vec::from_slice(alloc, b"\x05\x03\xff").ok()?,
        };
        arrivals.push(packet).ok()?;
    }
    Some(MemoryPorts::new(alloc, arrivals))
}

/// Returns whether the next arrival is a packet of `packets_at` at the time `at`.
fn brings_packet<P: Ports>(ports: &mut P, node: &Node, at: u64) -> bool {
    let mut buffer = [0; 16];
    let Ok(
        Some(
            Event::Packet {
                face: 1,
                now,
                octets: len,
            },
        ),
    ) = ports.next(node, &mut buffer)
    else {
        return false;
    };
    now == at && len == 3 && buffer[0] == 5 && buffer[1] == 3 && buffer[2] == 255
}

/// Returns whether the next arrival is new rules at the time `at`.
fn brings_rules<P: Ports>(ports: &mut P, node: &Node, at: u64) -> bool {
    matches!(ports.next(node, &mut [0; 16]), Ok(Some(Event::NewRules { now, .. })) if now == at)
}

/// Returns whether the next arrival is the closing of this face at the time `at`.
fn closes<P: Ports>(ports: &mut P, node: &Node, closed: u64, at: u64) -> bool {
    matches!(
        ports.next(node, &mut [0; 16]),
        Ok(Some(Event::FaceDown { face, now })) if face == closed && now == at
    )
}

/// Returns whether the source of rules is checked for the first time one second after the start.
/// The new rules must come before the packet that arrives one second after the start, and this
/// packet must follow unchanged.
fn rules_come_first(alloc: Global) -> Option<bool> {
    let renewal = no_rules(alloc)?;
    let source = Once {
        renewal: Some(renewal),
    };
    let mut ports = WatchedPorts::new(packets_at(alloc, &[999, 1000, 5000])?, source);
    let node = node(alloc)?;
    Some(
        brings_packet(&mut ports, &node, 999)
            && brings_rules(&mut ports, &node, 1000)
            && brings_packet(&mut ports, &node, 1000)
            && brings_packet(&mut ports, &node, 5000),
    )
}

#[test]
fn new_rules_come_first(rt: HostRuntime) {
    assert!(rt; rules_come_first(rt.alloc()) == Some(true));
}

/// Returns whether the first arrivals after a restart are its events, in their order, and then a
/// packet.
fn restart_comes_first(alloc: Global) -> Option<bool> {
    let mut first = Vec::new(alloc);
    let renewal = no_rules(alloc)?;
    first
        .push(Event::NewRules {
            rules: renewal,
            now: 40,
        })
        .ok()?;
    first.push(Event::FaceDown { face: 7, now: 40 }).ok()?;
    first.push(Event::FaceDown { face: 9, now: 40 }).ok()?;
    let mut ports = RestartedPorts::new(first, packets_at(alloc, &[50])?);
    let node = node(alloc)?;
    Some(
        brings_rules(&mut ports, &node, 40)
            && closes(&mut ports, &node, 7, 40)
            && closes(&mut ports, &node, 9, 40)
            && brings_packet(&mut ports, &node, 50),
    )
}

#[test]
fn a_restart_comes_first(rt: HostRuntime) {
    assert!(rt; restart_comes_first(rt.alloc()) == Some(true));
}
