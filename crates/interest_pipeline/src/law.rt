//! Laws on all sequences of calls.

ghost use Rattle.std.specs.Prelude.{◌≡◌, ◌≢◌, ◌≤◌, ◌<◌, ◌+◌, ◌-◌, ◌*◌, ◌/◌, ◌^◌, ◌⊎◌, ◌||◌, min, ℕ, List, None, Some, true, false, is_some};
ghost use Rattle.std.specs.Int.{abs_diff};
ghost use Rattle.interest_pipeline.specs.declared.rtt.Smoothed.{Smoothed};
ghost use Rattle.interest_pipeline.specs.Rtt.{IsWithin, later};
ghost use Rattle.interest_pipeline.specs.Window.{halved};
ghost use Rattle.interest_pipeline.specs.Flight.{IsEnded, given_up, in_flight_of, is_wanted};
ghost use Rattle.interest_pipeline.specs.Pipeline.{PipelineState, after_expire, after_next, deadline_of, number_to_send, start};
ghost use Rattle.interest_pipeline.specs.Runs.{Answer, Call, IsInFlight, IsLost, after, halves, sendings_of, state_after, was_answered};

/// Law: after any calls, the window is at most the greatest window, and at least two segments, or
/// one, if the greatest window is one. A segment is sent only if then no more segments are in
/// flight than the window has. There are never more in flight than the greatest window.
pub fn the_window_limits_what_is_sent()
    ensures window { (limit retries : ℕ) (calls : List Call) → 1 ≤ limit
        → let s = state_after (start limit retries) calls in
        (min 2 limit ≤ s.window.cwnd) × (s.window.cwnd ≤ limit) }
    ensures sent { (s : PipelineState) (now number : ℕ) → number_to_send s ≡ Some number
        → in_flight_of (after_next s now).flight ≤ (after_next s now).window.cwnd }
    ensures in_flight { (limit retries : ℕ) (calls : List Call)
        → in_flight_of (state_after (start limit retries) calls).flight ≤ limit }
{}

/// Law: after any calls, no segment above the last one is sent, none that was answered after it had
/// been sent, and none more than `retries` + 1 times. A segment that is given up was sent so often,
/// has not been answered, and is not above the last one.
pub fn no_segment_is_sent_too_often()
    ensures wanted { (limit retries number : ℕ) (calls : List Call)
        → let s = state_after (start limit retries) calls in
        number_to_send s ≡ Some number → is_wanted s.flight.last number ≡ true }
    ensures unanswered { (limit retries number : ℕ) (calls : List Call)
        → number_to_send (state_after (start limit retries) calls) ≡ Some number
        → was_answered (start limit retries) calls number ≡ false }
    ensures count { (limit retries number : ℕ) (calls : List Call)
        → sendings_of (start limit retries) calls number ≤ retries + 1 }
    ensures gave_up { (limit retries number : ℕ) (calls : List Call)
        → let s = state_after (start limit retries) calls in given_up s.flight ≡ Some number
        → (sendings_of (start limit retries) calls number ≡ retries + 1)
        × (was_answered (start limit retries) calls number ≡ false)
        × (is_wanted s.flight.last number ≡ true) }
{}

/// Law: after any calls, a segment that was sent, and is not above the last one, has been answered,
/// or is in flight, or waits to be sent again. A pipeline that is not done and has not given up has
/// a segment to send, or a deadline, unless 2^64 - 1 segments have been answered. At the deadline,
/// `expire` loses a segment in flight. In a pipeline that is done, each segment up to the last one
/// has been answered.
pub fn no_segment_is_forgotten()
    ensures kept { (limit retries number : ℕ) (calls : List Call)
        → let s = state_after (start limit retries) calls in
        1 ≤ sendings_of (start limit retries) calls number
        → is_wanted s.flight.last number ≡ true
        → (was_answered (start limit retries) calls number ≡ true) ⊎ (IsInFlight s number
        ⊎ IsLost s number) }
    ensures progress { (limit retries : ℕ) (calls : List Call) → 1 ≤ limit
        → let s = state_after (start limit retries) calls in
        s.flight.base < 2 ^ 64 - 1 → (IsEnded s.flight → ⊥) → given_up s.flight ≡ None
        → (is_some (number_to_send s) || is_some (deadline_of s)) ≡ true }
    ensures expires { (s : PipelineState) (moment : ℕ) → deadline_of s ≡ Some moment
        → in_flight_of (after_expire s moment).flight < in_flight_of s.flight }
    ensures done { (limit retries last number : ℕ) (calls : List Call)
        → let s = state_after (start limit retries) calls in
        s.flight.last ≡ Some last → last < s.flight.base → number ≤ last
        → was_answered (start limit retries) calls number ≡ true }
{}

/// Law: only calls that halve the window lower it. If two calls halve the window, the later one
/// loses a segment that was sent after the earlier one.
pub fn the_window_is_halved_once_for_a_window_of_segments()
    ensures halved { (s : PipelineState) (call : Call) → halves s call ≡ true
        → (after s call).window ≡ halved s.window }
    ensures others { (limit retries : ℕ) (calls : List Call) (call : Call)
        → let s = state_after (start limit retries) calls in halves s call ≡ false
        → s.window.cwnd ≤ (after s call).window.cwnd }
    ensures once { (s : PipelineState) (earlier call : Call) (between : List Call)
        → let t = state_after (after s earlier) between in
        halves s earlier ≡ true → halves t call ≡ true
        → (number : ℕ) × (1 ≤ sendings_of (after s earlier) between number)
        × IsInFlight t number × IsLost (after t call) number }
{}

/// Law: after any calls, an answer gives a sample of the round-trip time only if its segment was
/// sent exactly once (RFC 6298, section 3).
pub fn only_segments_sent_once_give_samples()
    ensures { (limit retries number now : ℕ) (calls : List Call)
        → let s = state_after (start limit retries) calls in
        sendings_of (start limit retries) calls number ≢ 1
        → (after s (Answer number now)).rtt ≡ s.rtt }
{}

/// Law: after any calls, the retransmission timeout is within its limits.
pub fn the_timeout_is_within_its_limits()
    ensures { (limit retries : ℕ) (calls : List Call)
        → IsWithin (state_after (start limit retries) calls).rtt.rto }
{}

/// Law: an estimate after a sample is that of RFC 6298, section 2, rule 2.3, rounded up to a part
/// of a microsecond: an eighth for SRTT, a quarter for RTTVAR.
pub fn estimates_are_rounded_to_parts_of_a_microsecond()
    ensures srtt { (s : Smoothed) (r : ℕ) → let exact = 7 * s.srtt8 + 8 * r in
        (exact ≤ 8 * (later s r).srtt8) × (8 * (later s r).srtt8 < exact + 8) }
    ensures rttvar { (s : Smoothed) (r : ℕ)
        → let exact = 3 * s.rttvar4 + 4 * abs_diff (s.srtt8 / 8) r in
        (exact ≤ 4 * (later s r).rttvar4) × (4 * (later s r).rttvar4 < exact + 4) }
{}
