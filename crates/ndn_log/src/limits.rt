//! The limits on the lines that strangers can cause: lines about packets that were denied or
//! dropped, and about failed sends.

ghost use Rattle.std.specs.Prelude.{◌≡◌, ◌≤◌, ◌<◌, ◌+◌, ℕ, Bool, List, [], ◌∷◌, position};
ghost use Rattle.std.specs.List.{count_by};
ghost use Rattle.ndn_log.specs.Limits.{LimitsState, Notice, begun, has_room, is_at, is_in, is_of, is_over, is_shown, leave, left_among, limits_after, notice_of, others_among, second_of, shown_among};
ghost use Rattle.ndn_log.specs.LimitLaws.{Follows};

use arrayvec::ArrayVec;
use std::marker::Model;

/// At most this many of these lines of one face are shown in a second.
const FACE_LINES: usize = 10;

/// At most this many of these lines are shown in a second.
pub(crate) const SECOND_LINES: usize = 100;

/// A line that is shown.
#[derive(Clone, Copy, Default)]
pub struct ShownLine {
    /// The face of the line.
    pub face: u64,
    /// In the first line of a face: the number of lines that were left out because of the limit on
    /// this face. In another line: 0.
    pub left: u64,
}

/// The lines of one second, and how many lines were left out in this second. Lines about packets
/// that were denied or dropped and about failed sends are limited to 10 in a second for one face,
/// and to 100 in a second for all faces together. A second is a whole second of the node's time:
/// all moments with the same quotient by 1,000. The memory is fixed, and a call takes a constant
/// time.
#[derive(Drop)]
pub struct LineLimits {
    second: u64,
    shown: ArrayVec<ShownLine, SECOND_LINES>,
    others: u64,
}

impl Model for LineLimits {
    ghost use Rattle.ndn_log.specs.Limits.{LimitsState};

    ghost Value = { LimitsState };

    ghost view = { λ l. record { second = l.second; shown = l.shown.items; others = l.others } };
}

impl LineLimits {
    /// Returns the state at the start of 1970, before any line.
    pub fn new() -> LineLimits
        ensures { result ≡ begun 0 }
    {
        LineLimits {
            second: 0,
            shown: ArrayVec::new(),
            others: 0,
        }
    }

    /// Returns whether `moment` is in another second than the lines that are counted. `moment` is
    /// in milliseconds since 1970.
    pub fn is_over(&self, moment: u64) -> bool
        ensures { result ≡ is_over self.now moment }
    {
        moment / 1000 != self.second
    }

    /// Begins the second of `moment`, and forgets what was counted. `moment` is in milliseconds
    /// since 1970.
    pub fn begin(&mut self, moment: u64)
        ensures { self.new ≡ begun moment }
    {
        self.second = moment / 1000;
        self.shown.clear();
        self.others = 0;
    }

    /// Returns whether a line of `face` is shown, and counts the line as shown or as left out. A
    /// line whose moment is not in the second that began last is left out. `moment` is in
    /// milliseconds since 1970.
    pub fn admit(&mut self, moment: u64, face: u64) -> bool
        ensures shown { result ≡ is_shown self.old moment face }
        ensures after { self.new ≡ limits_after self.old moment face }
    {
        if self.is_over(moment) {
            self.others = self.others.saturating_add(1);
            return false;
        }
        if self.lines_of(face) >= FACE_LINES {
            leave(self.shown.as_mut_slice(), face);
            return false;
        }
        if self.shown.len() >= SECOND_LINES {
            self.others = self.others.saturating_add(1);
            return false;
        }
        self.shown.push(ShownLine { face, left: 0 });
        true
    }

    fn lines_of(&self, face: u64) -> usize
        ensures { result ≡ count_by (is_of face) self.now.shown }
    {
        self.shown
            .as_slice()
            .iter()
            .filter(|line| line.face == face)
            .count()
    }

    /// Returns the lines that were shown in this second, the earliest first.
    pub(crate) fn shown(&self) -> &[ShownLine]
        ensures { result.now ≡ self.now.shown }
    {
        self.shown.as_slice()
    }

    /// Returns the number of lines that were left out only because of the limit on all faces.
    pub(crate) fn others(&self) -> u64
        ensures { result ≡ self.now.others }
    {
        self.others
    }
}

/// Counts a line that is left out because of the limit on its face.
fn leave(shown: &mut [ShownLine], face: u64)
    ensures { shown.new ≡ leave face shown.old }
{
    if let Some(place) = place_of(shown, face) {
        shown[place].left = shown[place].left.saturating_add(1);
    }
}

/// Returns the place of the first line of a face, or `None` if no line of the face is shown.
fn place_of(shown: &[ShownLine], face: u64) -> Option<usize>
    ensures { result ≡ position (is_of face) shown.now }
{
    shown.iter().position(|line| line.face == face)
}

/// Law: of any notices that came, in whatever order of their times, at most 10 lines of one face in
/// one second are shown, and at most 100 lines in one second. The lines that are shown and the
/// lines that are left out are together the lines that came.
pub fn shown_lines_are_limited()
    ensures face { (came : List Notice) (second face : ℕ)
        → count_by (is_at second face) (shown_among came) ≤ FACE_LINES }
    ensures all { (came : List Notice) (second : ℕ)
        → count_by (is_in second) (shown_among came) ≤ SECOND_LINES }
    ensures told { (came : List Notice) (test : Notice → Bool)
        → count_by test (shown_among came) + count_by test (left_among came)
        + count_by test (others_among came) ≡ count_by test came }
{}

/// Law: a state that begins each second when its first notice comes shows the lines that are to be
/// shown of all that came (`shown_among`), and has the counts of what it left out in its second.
/// This is true as long as no notice comes in an earlier second than the notice before it.
pub fn limits_follow_what_came()
    ensures first { Follows [] (begun 0) }
    ensures later { (came : List Notice) (limits : LimitsState) (moment : ℕ)
        → Follows came limits → limits.second < second_of moment → Follows came (begun moment) }
    ensures shown { (came : List Notice) (limits : LimitsState) (moment face : ℕ)
        → Follows came limits → second_of moment ≡ limits.second
        → is_shown limits moment face ≡ has_room (notice_of moment face) (shown_among came) }
    ensures more { (came : List Notice) (limits : LimitsState) (moment face : ℕ)
        → Follows came limits → second_of moment ≡ limits.second
        → Follows (notice_of moment face ∷ came) (limits_after limits moment face) }
{}
