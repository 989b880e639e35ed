//! Laws about streams.

ghost use Rattle.std.specs.Prelude.{◌≡◌, ◌<◌, ◌≤◌, ◌↔◌, ℕ, List, [], ◌++◌, length, min, Ok, slice_index};
ghost use Rattle.ndn_streams.specs.declared.fault.StreamFault.{StreamFault};
ghost use Rattle.ndn_streams.specs.Packet.{BeginsNoPacket, FaultOf};
ghost use Rattle.ndn_streams.specs.Stream.{IsCutOf, Left, cut_of, joined};
ghost use Rattle.ndn_streams.specs.Cutting.{taken_all};
ghost use Rattle.ndn_streams.specs.Queue.{Call, MOST, empty, octets_written, packets_dropped, packets_taken, state_after};

/// Law: however a stream is cut into pieces, a new cutter that takes them one after another gives
/// the packets of the stream, and then holds the octets after them, or has the fault.
pub fn any_cut_gives_the_same_packets()
    ensures { (pieces : List (List ℕ)) → taken_all (Ok []) pieces ≡ cut_of (joined pieces) }
{}

/// Law: octets are at most one list of packets, one after another, and then a beginning of a
/// packet, or octets with a fault. `cut_of` returns these packets, and what is left.
pub fn streams_have_one_reading()
    ensures one { (octets : List ℕ) (first second : List (List ℕ)) (left rest : Left)
        → IsCutOf octets first left → IsCutOf octets second rest
        → (first ≡ second) × (left ≡ rest) }
    ensures exact { (octets : List ℕ) (packets : List (List ℕ)) (left : Left)
        → ((i : ℕ) → slice_index octets i < 256)
        → ((cut_of octets ≡ (packets, left)) ↔ IsCutOf octets packets left) }
{}

/// Law: octets have a fault exactly if no packet can begin with them, whatever octets come next. So
/// a fault is told as soon as the octets show it. Octets have at most one fault.
pub fn faults_are_told_at_once()
    ensures at_once { (octets : List ℕ) → ((i : ℕ) → slice_index octets i < 256)
        → (((fault : StreamFault) × FaultOf octets fault) ↔ BeginsNoPacket octets) }
    ensures one { (octets : List ℕ) (first second : StreamFault)
        → FaultOf octets first → FaultOf octets second → first ≡ second }
{}

/// Law: the octets that were written, followed by those that wait, are the packets that were taken,
/// one after another. Never more octets wait than the limit. The dropped packets are counted.
pub fn only_whole_packets_are_written()
    ensures whole { (limit : ℕ) (calls : List Call) → let first = empty limit in
        octets_written first calls ++ (state_after first calls).waiting
        ≡ joined (packets_taken first calls) }
    ensures limited { (limit : ℕ) (calls : List Call)
        → length (state_after (empty limit) calls).waiting ≤ limit }
    ensures counted { (limit : ℕ) (calls : List Call) → let first = empty limit in
        (state_after first calls).dropped ≡ min (packets_dropped first calls) MOST }
{}
