use super::octets::octets_of;
use super::{on_node, rules};
use info_rules::Rules;
use key_files::KeyBook;
use ndn_names::NameBuf;
use node_core::{Event, Node, NodeFault, NodeParts, Outbox, RulesAndKeys, Scope, Verdict};
use std::alloc::Global;
use test_support::first_wrong;

/// Each row is a repository's prefix and a cache's capacity, followed by the result of making a
/// node with this prefix and this capacity.
const PARTS: &str = "
/repo 1024 -> Ok(())
/ 0 -> Err(BadRepoPrefix)
/localhost/repo 1 -> Err(BadRepoPrefix)
/repo 0 -> Err(BadCapacity)
/repo 1 -> Ok(())
/repo 65536 -> Ok(())
/repo 65537 -> Err(BadCapacity)
";

/// Returns the parts of a node whose repository has this prefix and whose cache has this capacity.
fn parts_at(alloc: Global, prefix: &str, cache: u32) -> Option<NodeParts> {
    let repo = NameBuf::from_uri(alloc, prefix).ok()?;
    Some(NodeParts {
        rules: rules(alloc)?,
        keys: KeyBook::new(alloc),
        repo,
        cache,
    })
}

/// Makes a node whose repository has this prefix and whose cache has this capacity, and drops the
/// node. Returns `Ok(())` or the fault.
fn made_at(alloc: Global, prefix: &str, cache: u32) -> Option<Result<(), NodeFault>> {
    Some(Node::new(alloc, parts_at(alloc, prefix, cache)?).map(drop))
}

/// Makes a node of the parts that `row` gives, and returns the result.
fn made(alloc: Global, row: &str) -> Option<String> {
    let (prefix, cache) = row.split_once(' ')?;
    let made = made_at(alloc, prefix, cache.parse::<u32>().ok()?)?;
    format!(in alloc; "{made:?}").ok()
}

/// Makes a node of the parts in a row. Returns whether the result is the text after the row's
/// arrow.
fn is_made(alloc: Global, row: &str) -> bool {
    let (parts, wanted) = row.split_once(" -> ").unwrap_or((row, "no arrow"));
    made(alloc, parts).as_deref() == Some(wanted)
}

#[test]
fn parts_of_a_node(rt: HostRuntime) {
    assert!(rt; first_wrong(rt.alloc(), PARTS, is_made) == 0);
}

/// Opens the Far face 1 of a node. Returns whether the step succeeds.
fn opens(node: &mut Node, outbox: &mut Outbox) -> bool {
    let up = Event::FaceUp {
        face: 1,
        scope: Scope::Far,
        now: 0,
    };
    node.step(up, outbox).is_ok()
}

/// Gives a node an Interest that comes on face 1, and returns whether the verdict is `Passed`.
fn passes(node: &mut Node, outbox: &mut Outbox, octets: &[u8]) -> bool {
    let interest = Event::Packet {
        face: 1,
        now: 1000,
        octets,
    };
    node.step(interest, outbox).ok() == Some(Verdict::Passed)
}

/// Returns whether an outbox has exactly two sends, and the second send is this Nack on face 1.
fn ends_with(outbox: &Outbox, nack: &[u8]) -> bool {
    outbox.sent(1) == Some((1, nack)) && outbox.len() == 2 && outbox.sent(2).is_none()
}

/// Opens face 1 of a node, gives the node this Interest twice, and then clears the outbox. Returns
/// whether both verdicts are `Passed`, and whether the outbox is empty at first, has two packets
/// before it is cleared, and is empty afterwards. The second packet must be this Nack.
fn sends_in_order(node: &mut Node, outbox: &mut Outbox, interest: &[u8], nack: &[u8]) -> bool {
    let was_empty = outbox.is_empty();
    let passed = opens(node, outbox)
        && passes(node, outbox, interest)
        && passes(node, outbox, interest);
    let ended = ends_with(outbox, nack);
    outbox.clear();
    was_empty && passed && ended && outbox.is_empty()
}

/// Returns what `sends_in_order` returns for an Interest without a route and for the Nack that
/// answers this Interest.
fn sends_nack_in_order(alloc: Global, node: &mut Node) -> bool {
    let interest = octets_of(alloc, "INTEREST");
    let nack = octets_of(alloc, "NO_ROUTE");
    sends_in_order(node, &mut Outbox::new(alloc), &interest, &nack)
}

/// Returns what `sends_nack_in_order` returns for a new node.
fn new_node_sends_in_order(alloc: Global) -> Option<bool> {
    on_node(alloc, &|alloc, node| Some(sends_nack_in_order(alloc, node)))
}

#[test]
fn sends(rt: HostRuntime) {
    assert!(rt; new_node_sends_in_order(rt.alloc()) == Some(true));
}

/// Returns whether there are three rules, and `RuleNo(1)` has the id `repo-ops`, as in the sample
/// rules.
fn are_sample_rules(rules: &Rules) -> bool {
    rules.len() == 3 && rules.id(info_rules::RuleNo(1)) == "repo-ops"
}

/// Returns whether a new node has the sample rules.
fn tells_rules(alloc: Global) -> Option<bool> {
    on_node(alloc, &|_, node| Some(are_sample_rules(node.rules())))
}

#[test]
fn rules_of_a_node(rt: HostRuntime) {
    assert!(rt; tells_rules(rt.alloc()) == Some(true));
}

/// Returns the event of a packet on face 1.
fn packet(now: u64, octets: &[u8]) -> Event<&[u8], RulesAndKeys> {
    Event::Packet {
        face: 1,
        now,
        octets,
    }
}

/// Opens the Local face 1 of a node, and gives the node the packet of a command. Returns whether
/// both steps succeed.
fn takes_command(node: &mut Node, outbox: &mut Outbox, command: &[u8]) -> bool {
    let up = Event::FaceUp {
        face: 1,
        scope: Scope::Local,
        now: 0,
    };
    node.step(up, outbox).is_ok() && node.step(packet(1_001_000, command), outbox).is_ok()
}

/// Opens the Local face 1 of a node, and gives the node a command to insert a Data. Returns whether
/// both steps succeed. The deadline of the command is at 1,001,100 milliseconds.
fn takes_insert(alloc: Global, node: &mut Node) -> bool {
    let insert = octets_of(alloc, "SHORT_INSERT");
    takes_command(node, &mut Outbox::new(alloc), &insert)
}

/// Returns whether `takes_insert` returns true for a node. Afterwards the node's time must be the
/// time of the command, and the Local face 1 must be the node's only open face.
fn tells_after_insert(alloc: Global, node: &mut Node) -> bool {
    takes_insert(alloc, node)
        && node.now() == 1_001_000
        && node.open_face(0) == Some((1, Scope::Local))
        && node.open_face(1).is_none()
}

/// Returns what `tells_after_insert` returns for a new node.
fn tells_time_and_faces(alloc: Global) -> Option<bool> {
    on_node(alloc, &|alloc, node| Some(tells_after_insert(alloc, node)))
}

#[test]
fn time_and_faces_of_a_node(rt: HostRuntime) {
    assert!(rt; tells_time_and_faces(rt.alloc()) == Some(true));
}

/// Gives a node a Data that comes on face 1 at this moment. Returns whether the Data is allowed,
/// and the verdict tells that the Data was stored, or not (`is_stored`).
fn takes_data(
    node: &mut Node,
    outbox: &mut Outbox,
    now: u64,
    data: &[u8],
    is_stored: bool,
) -> bool {
    matches!(
        node.step(packet(now, data), outbox),
        Ok(Verdict::DataAllowed { stored, .. }) if stored == is_stored
    )
}

/// Gives a node a command to insert the Data `D_A`. Then gives the node Data. Only the first `D_A`
/// before the deadline is stored: the Data `D_B` and a second `D_A` are not.
fn stores_once(alloc: Global, node: &mut Node) -> bool {
    let wanted = octets_of(alloc, "D_A");
    let other = octets_of(alloc, "D_B");
    let mut outbox = Outbox::new(alloc);
    takes_insert(alloc, node)
        && takes_data(node, &mut outbox, 1_001_099, &other, false)
        && takes_data(node, &mut outbox, 1_001_099, &wanted, true)
        && takes_data(node, &mut outbox, 1_001_099, &wanted, false)
}

/// Gives a node a command to insert the Data `D_A`, and then the Data at the command's deadline.
/// Returns whether the Data is not stored.
fn stores_nothing_at_the_deadline(alloc: Global, node: &mut Node) -> bool {
    let wanted = octets_of(alloc, "D_A");
    takes_insert(alloc, node)
        && takes_data(node, &mut Outbox::new(alloc), 1_001_100, &wanted, false)
}

#[test]
fn data_that_a_node_stores(rt: HostRuntime) {
    let alloc = rt.alloc();
    assert!(rt; on_node(alloc, &|alloc, node| Some(stores_once(alloc, node))) == Some(true));
    assert!(rt;
        on_node(
            alloc,
            &|alloc, node| Some(stores_nothing_at_the_deadline(alloc, node))
        ) == Some(true)
    );
}
