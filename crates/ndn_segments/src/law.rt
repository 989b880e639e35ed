//! Laws of pieces, segments and assemblers. The functions have empty bodies: their contracts state
//! the laws.

ghost use Rattle.std.specs.Prelude.{◌≡◌, ◌≢◌, ◌+◌, ◌<◌, ◌≤◌, ◌++◌, ◌^◌, ℕ, List, Some, Ok, false, length, slice_get};
ghost use Rattle.std.specs.List.{concat};
ghost use Rattle.ndn_tlv.specs.Element.{Field};
ghost use Rattle.ndn_segments.specs.declared.assembler.Taken.TheVariants.{Accepted};
ghost use Rattle.ndn_segments.specs.Pieces.{last_piece, piece, pieces};
ghost use Rattle.ndn_packets.specs.Packet.{PlainData};
ghost use Rattle.ndn_segments.specs.declared.fault.SegmentFault.{SegmentFault};
ghost use Rattle.ndn_segments.specs.Names.{version_name};
ghost use Rattle.ndn_segments.specs.Segment.{PlainSegment, IsSegmentOf, IsNoSegment};
ghost use Rattle.ndn_segments.specs.Cut.{Plan, piece_len, segment_text, segment_data, IsSegment};
ghost use Rattle.ndn_segments.specs.Held.{content_at};
ghost use Rattle.ndn_segments.specs.Assembling.{Assembly, start, answer_to, is_other, IsFinished, IsWanted};
ghost use Rattle.ndn_segments.specs.Assembles.{Assembles, Has, AreOf, IsWritten, segment, state_after, written_after, accepted_of};

/// Law: the pieces of a file are the file. Each piece has `size` octets, except the last one, which
/// has at least one octet if the file has any, and at most `size` octets.
pub fn pieces_make_the_file()
    ensures joined { (size : ℕ) (file : List ℕ) → 1 ≤ size → concat (pieces size file) ≡ file }
    ensures each { (size number : ℕ) (file : List ℕ) → number ≤ last_piece size (length file)
        → slice_get (pieces size file) number ≡ Some (piece size file number) }
    ensures count { (size : ℕ) (file : List ℕ)
        → length (pieces size file) ≡ last_piece size (length file) + 1 }
    ensures full { (size number : ℕ) (file : List ℕ) → 1 ≤ size
        → number < last_piece size (length file) → length (piece size file number) ≡ size }
    ensures rest { (size : ℕ) (file : List ℕ) → 1 ≤ size → 1 ≤ length file
        → let len = length (piece size file (last_piece size (length file))) in
        (1 ≤ len) × (len ≤ size) }
{}

/// Law: the piece of a file with some number has the length that a cutter asks for, and the Data
/// that is written with it is read as the segment of the file with this number.
pub fn written_segments_are_of_the_file()
    ensures len { (p : Plan) (file : List ℕ) (number : ℕ) → p.len ≡ length file
        → length (piece p.size file number) ≡ piece_len p number }
    ensures segment { (p : Plan) (file : List ℕ) (number : ℕ) → p.len ≡ length file
        → IsSegment p number (piece p.size file number)
        → IsSegmentOf (version_name p.name p.version)
        (segment_text p number (piece p.size file number))
        (segment_data p number (piece p.size file number)) (segment p.size file number) }
{}

/// Law: a Data is at most one segment of a file, and is none if there is a reason why it is none.
pub fn each_data_is_one_segment_or_none()
    ensures one { (stem : List Field) (whole : List ℕ) (d : PlainData) (a b : PlainSegment)
        → IsSegmentOf stem whole d a → IsSegmentOf stem whole d b → a ≡ b }
    ensures none { (stem : List Field) (whole : List ℕ) (d : PlainData) (s : PlainSegment)
        (why : SegmentFault) → IsSegmentOf stem whole d s → IsNoSegment stem whole d why → ⊥ }
    // A segment of one version of a file is no segment of another version.
    ensures version { (name : List Field) (v w : ℕ) (whole : List ℕ) (d : PlainData)
        (s t : PlainSegment) → v < 2 ^ 64 → w < 2 ^ 64
        → IsSegmentOf (version_name name v) whole d s
        → IsSegmentOf (version_name name w) whole d t → v ≡ w }
{}

/// Law: segments assemble to at most one file.
pub fn segments_assemble_one_file()
    ensures { (segments : List PlainSegment) (a b : List ℕ) → Assembles segments a
        → Assembles segments b → a ≡ b }
{}

/// Law: whatever segments come to a new assembler, in whatever order and however often, the octets
/// that it has written are the contents of the first segments among those that it has accepted, in
/// order and without a gap. When it is finished, the accepted segments assemble to exactly the file
/// that it has written.
pub fn only_accepted_segments_are_written()
    ensures so_far { (stem : List Field) (limit window : ℕ) (received : List PlainSegment)
        → let first = start stem limit window in
        IsWritten (accepted_of first received) (state_after first received).next
        (written_after first received) }
    ensures finished { (stem : List Field) (limit window : ℕ) (received : List PlainSegment)
        → let first = start stem limit window in
        IsFinished (state_after first received)
        → Assembles (accepted_of first received) (written_after first received) }
    ensures accepted { (first : Assembly) (received : List PlainSegment) (s : PlainSegment)
        → Has (accepted_of first received) s → Has received s }
{}

/// Law: if only segments of one file come, in whatever order and however often, a finished
/// assembler has written this file. If each segment has come, and the window is longer than the
/// number of the last segment, the assembler is finished.
pub fn segments_give_the_file_in_any_order()
    ensures whole { (stem : List Field) (limit window size : ℕ) (file : List ℕ)
        (received : List PlainSegment) → 1 ≤ size → AreOf size file received
        → let first = start stem limit window in
        IsFinished (state_after first received) → written_after first received ≡ file }
    ensures all { (stem : List Field) (limit window size : ℕ) (file : List ℕ)
        (received : List PlainSegment) → 1 ≤ size → AreOf size file received → size ≤ limit
        → last_piece size (length file) < window
        → ((number : ℕ) → number ≤ last_piece size (length file)
        → Has received (segment size file number))
        → let first = start stem limit window in
        IsFinished (state_after first received)
        × (written_after first received ≡ file) }
{}

/// Law: an assembler holds contents for at most `window` segments, each of at most `limit` octets.
pub fn only_a_window_is_held()
    ensures { (stem : List Field) (limit window : ℕ) (received : List PlainSegment) (index : ℕ)
        (content : List ℕ)
        → content_at (state_after (start stem limit window) received).held index ≡ Some content
        → (index < window) × (length content ≤ limit) }
{}

/// Law: if the segment with some number has not come, the assembler is not finished. Segments of
/// other files and versions do not count, because no assembler reads them as segments.
pub fn missing_segments_are_waited_for()
    ensures { (stem : List Field) (limit window last number : ℕ) (received : List PlainSegment)
        → number ≤ last → ((s : PlainSegment) → Has received s → s.last ≡ last)
        → ((s : PlainSegment) → Has received s → s.number ≢ number)
        → IsFinished (state_after (start stem limit window) received) → ⊥ }
{}

/// Law: an assembler that is not finished and has a window wants the first segment that it has not
/// written. If a segment is wanted, is not too long, and has the FinalBlockId of the segments
/// before, it is accepted.
pub fn the_next_segment_is_wanted()
    ensures next { (stem : List Field) (limit window : ℕ) (received : List PlainSegment)
        → 1 ≤ window → let a = state_after (start stem limit window) received in
        (IsFinished a → ⊥) → IsWanted a a.next }
    ensures accepted { (a : Assembly) (s : PlainSegment) → IsWanted a s.number
        → is_other a.last s.last ≡ false → s.number ≤ s.last → length s.content ≤ a.limit
        → answer_to a s ≡ Ok Accepted }
{}
