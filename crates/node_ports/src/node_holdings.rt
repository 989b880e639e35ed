//! What a node has for its faces.
ghost use Rattle.std.specs.Prelude.{◌≡◌};

use face_table::Holdings;
use forwarder::Node;

/// A node that is asked what it has for its faces: the records of pending Interests, and the
/// routes.
#[derive(Clone, Copy)]
pub struct NodeHoldings<'a> {
    node: &'a Node,
}

impl<'a> NodeHoldings<'a> {
    /// Returns what this node has.
    pub fn of(node: &'a Node) -> NodeHoldings<'a>
        ensures { result.node.now ≡ node.now }
    {
        NodeHoldings { node }
    }
}

impl Holdings for NodeHoldings<'_> {
    ghost use Rattle.node_ports.specs.Holdings.{NodeAnswers};

    ghost Answers = { λ holdings face told. NodeAnswers holdings.node.now face told };

    fn holds(&self, face: u64) -> bool {
        self.node.holds(face)
    }
}
