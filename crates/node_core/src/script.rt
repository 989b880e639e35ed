ghost use Rattle.std.specs.Prelude.{◌≡◌, ℕ, List, Err, OnOk, IfErr, MatchOption};
ghost use Rattle.forwarder.specs.Parts.{first_node, parts_fault};
ghost use Rattle.forwarder.specs.Event.{PlainEvent};
ghost use Rattle.node_core.specs.Script.{IsScript, IsBadAt};
ghost use Rattle.node_core.specs.Script.Ending.{Ends, Stops, ComesWithGoodParts};

mod input;
mod line;
mod line_writer;
mod output;
mod player;
mod word;

use crate::script::player::Player;
use forwarder::{Node, NodeFault, NodeParts};
pub use line::{Line, line_of};
pub use line_writer::{LineFault, WrittenEvent, event_line, hex_word};
pub use output::put_all;
use std::alloc::Global;
use std::io::{Read, Write};
use thiserror::Error;
pub use word::cut_line;

/// Why a script was not run to its end. Answers that were already written stay written.
#[derive(Clone, Copy, Debug, PartialEq, Eq, Error)]
pub enum RunFault {
    /// The line with this number, counted from 1, is not a line of a script.
    #[error("line {0} is a bad line")]
    BadLine(u64),
    /// The reader failed, or was called 4,294,967,295 times without reporting the end of the
    /// script.
    #[error("the script cannot be read")]
    Read,
    /// The writer failed, accepted no octets, or was called 4,294,967,295 times for the answers
    /// that are written after one read.
    #[error("the answers cannot be written")]
    Write,
    /// The node could not be created. Nothing was read or written.
    #[error("{0}")]
    Node(NodeFault),
    /// Memory ran out for the read buffer, for reading a line, or for the text of an answer.
    #[error("out of memory")]
    Memory,
}

/// Runs the events of a script on a new node and writes the answers. The answers to all lines whose
/// LF is among the octets of one read are written before the next read.
///
/// The line of an event is `up FACE local|far MOMENT`, `down FACE MOMENT`, `tick MOMENT`,
/// `in FACE MOMENT HEX` or `rules MOMENT HEX HEX`. FACE is the number of a face, MOMENT is a time
/// in milliseconds since 1970, and HEX stands for octets in hexadecimal, where `-` stands for no
/// octets. Words are separated by single spaces. Numbers are decimal, below 2 ^ 64 and without
/// leading zeros. The HEX of `in` has the octets that arrive on the face. The first HEX of `rules`
/// has the octets of a rule file, and the second HEX has the octets of a key file. Empty lines and
/// lines that begin with `#` are skipped. Every line has at most 20,000 octets, not counting its
/// LF. A line ends with an LF or at the end of the input. If memory runs out while the node handles
/// an event, the answer to the event has `memory` in place of a verdict. Such an event has no
/// effect.
pub fn run_script<R: Read, W: Write>(
    alloc: Global,
    reader: &mut R,
    writer: &mut W,
    parts: NodeParts,
) -> Result<(), RunFault>
    ensures done { OnOk result
        (Ends (first_node parts.rules parts.keys parts.repo parts.cache)
        (R.remaining reader.old) (R.remaining reader.new) (W.contents writer.old)
        (W.contents writer.new)) }
    ensures parts { MatchOption (parts_fault parts.repo parts.cache)
        (IfErr result ComesWithGoodParts)
        (λ fault. result ≡ Err (RunFault.Node fault)) }
    ensures stopped { IfErr result
        (λ fault. Stops (first_node parts.rules parts.keys parts.repo parts.cache) fault
        (R.remaining reader.old) (R.remaining reader.new) (W.contents writer.old)
        (W.contents writer.new)) }
{
    let mut player = match Node::new(alloc, parts) {
        Ok(node) => Player::new(alloc, node),
        Err(fault) => return Err(RunFault::Node(fault)),
    };
    player.run(reader, writer)
}

/// Law: a text is a script of at most one list of events. A text has at most one first bad line,
/// and at most one list of events before that line. No text is both a script and a text with a bad
/// line.
pub fn scripts_have_one_reading()
    ensures whole { (text : List ℕ) (a b : List PlainEvent) → IsScript text a → IsScript text b
        → a ≡ b }
    ensures bad { (text : List ℕ) (m n : ℕ) (a b : List PlainEvent)
        → IsBadAt text m a → IsBadAt text n b → (m ≡ n) × (a ≡ b) }
    ensures either { (text : List ℕ) (n : ℕ) (a b : List PlainEvent) → IsScript text a
        → IsBadAt text n b → ⊥ }
{}
