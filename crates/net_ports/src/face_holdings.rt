//! What a node, and the connections of its faces, have for these faces.
ghost use Rattle.std.specs.Prelude.{◌≡◌};

use crate::faces::{ConnectedFace, is_busy};
use face_table::Holdings;
use forwarder::Node;
use node_ports::NodeHoldings;

/// A node and its connections. They have something for a face if the node has, or if the face is
/// that of a connection that may have more packets, or that has not yet written all.
#[derive(Clone, Copy)]
pub struct FaceHoldings<'a> {
    node: &'a Node,
    faces: &'a [ConnectedFace],
}

impl<'a> FaceHoldings<'a> {
    /// Returns what this node and these connections have.
    pub fn of(node: &'a Node, faces: &'a [ConnectedFace]) -> FaceHoldings<'a>
        ensures node { result.node.now ≡ node.now }
        ensures faces { result.faces.now ≡ faces.now }
    {
        FaceHoldings { node, faces }
    }
}

impl Holdings for FaceHoldings<'_> {
    ghost use Rattle.net_ports.specs.Holdings.{AnswersOrBusy};

    ghost Answers = { λ holdings face told.
        AnswersOrBusy holdings.node.now holdings.faces.now face told };

    fn holds(&self, face: u64) -> bool {
        NodeHoldings::of(self.node).holds(face) || is_busy(self.faces, face)
    }
}
