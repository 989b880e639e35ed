//! The log of a node on a port: the lines of the log, and where these lines are written.
ghost use Rattle.std.specs.Prelude.{◌≡◌, ◌↔◌, ◌++◌, ◌-◌, ◌⊎◌, ℕ, List, [], Option, None, true, false, IsTrue};
ghost use Rattle.std.specs.Io.KnownBytes.{Appends};
ghost use Rattle.forwarder.specs.Event.{moment_of};
ghost use Rattle.node_ports.specs.Step.{one_more};
ghost use Rattle.ndn_log.specs.Event.{event_words};
ghost use Rattle.ndn_log.specs.Notes.{closed_words, failed_send_words, lost_words, stranger_words};
ghost use Rattle.ndn_log.specs.Limits.{LimitsState, begun};
ghost use Rattle.ndn_daemon.specs.EventLog.{Begins, LogsOrLoses, NotesEvent, SaysCount, Tells, TellsLeftOut, closed_with, is_held, is_left_out, limited_event, limited_send, limits_with, shows, so_far};

use info_rules::Rules;
use ndn_log::{
    Entry, LineLimits, LoggedEvent, is_plain, put_closed, put_event, put_failed_send, put_left_out,
    put_line, put_lost, put_strangers, refused_on,
};
use ndn_tlv::Memory;
use node_core::{Event, Verdict};
use std::alloc::Global;
use std::net::SocketAddr;

/// When the buffered lines have at least this many octets together after an event, they are
/// written.
const MOST_GATHERED: usize = 65_536;

/// When the first buffered line is at least this old, in milliseconds, the next event causes all
/// buffered lines to be written.
const WAIT_MILLISECONDS: u64 = 1_000;

/// The least time between two reports of counts, in milliseconds. Only the report at the end of the
/// log may come sooner after the report before it.
const COUNT_MILLISECONDS: u64 = 60_000;

/// A destination for the lines of a log.
pub trait LogSink: Drop {
    // The lines that were given to the sink, or `None` if these lines are not known.
    ghost given: { Self → Option (List ℕ) };

    /// Writes whole lines. If they cannot be written, they are lost, and no fault is reported.
    fn take(&mut self, lines: &[u8])
        ensures { Appends (given self.old) (given self.new) lines.now };
}

/// Gives a line with this time and these words to a sink, unless memory runs out.
pub fn report<S: LogSink>(alloc: Global, sink: &mut S, moment: u64, words: &[u8])
    ensures { Tells (S.given sink.old) (S.given sink.new) moment words.now }
{
    let mut line = Vec::new(alloc);
    if put_line(alloc, &mut line, moment, words).is_ok() {
        sink.take(&line);
    }
}

/// A log: the lines that are not yet written, and the counts that are not yet reported. If memory
/// runs out for a line, the line is lost, and counted.
#[derive(Drop)]
pub struct EventLog<S: LogSink> {
    alloc: Global,
    sink: S,
    shows_all: bool,
    text: Vec<u8>,
    // Lines about failed sends. A line about a failed send is moved to `text` after the event that
    // caused the send was logged or left out.
    later: Vec<u8>,
    // The time of the first line that is not yet written.
    since: u64,
    // The number of closed faces whose closing was left out of the log and is not yet reported.
    closed: u64,
    // The total number of datagrams that were dropped because their endpoints are not peers, as
    // last reported.
    strangers: u64,
    // The time of the last report of a count, or 0 if no count was reported yet.
    counted: u64,
    // How many times lines were lost because memory ran out, and this number as last reported.
    lost: u64,
    told: u64,
    // How many lines about denied and dropped packets and failed sends were shown and left out in
    // one second.
    limits: LineLimits,
}

impl<S: LogSink> EventLog<S> {
    /// Returns a log without lines. If `shows_all` is false, the log leaves out plain events
    /// (`ndn_log::is_plain`), and limits the lines about denied and dropped packets and about
    /// failed sends (`ndn_log::LineLimits`).
    pub fn new(alloc: Global, sink: S, shows_all: bool) -> EventLog<S>
        ensures text { result.text.items ≡ [] }
        ensures later { result.later.items ≡ [] }
        ensures shows_all { result.shows_all ≡ shows_all }
        ensures sink { result.sink ≡ sink }
        ensures counts { (result.closed ≡ 0) × (result.strangers ≡ 0) × (result.lost ≡ 0) }
        ensures limits { result.limits ≡ begun 0 }
    {
        EventLog {
            alloc,
            sink,
            shows_all,
            text: Vec::new(alloc),
            later: Vec::new(alloc),
            since: 0,
            closed: 0,
            strangers: 0,
            counted: 0,
            lost: 0,
            told: 0,
            limits: LineLimits::new(),
        }
    }

    /// Returns the destination of the lines. Lines that are not yet written are dropped.
    pub fn into_sink(self) -> S
        ensures { result ≡ self.sink }
    {
        self.sink
    }

    /// Returns whether no lines are waiting to be written.
    pub fn is_empty(&self) -> bool
        ensures { IsTrue result ↔ (self.now.text.items ≡ []) }
    {
        self.text.is_empty()
    }

    /// Logs an event with its outcome: appends its line, if the log shows the event, and then the
    /// lines of failed sends that were stored. Before that, the lines that tell what the limits
    /// left out are appended, if the event begins another second. Afterwards, counts are reported
    /// (`put_counts`), and buffered lines are written if they are old or many. `strangers` is the
    /// total number of datagrams that were dropped because their endpoints are not peers.
    pub fn note(
        &mut self,
        entry: &Entry<'_>,
        outcome: &Result<Verdict, Memory>,
        rules: &Rules,
        strangers: u64,
    )
        ensures { NotesEvent self.old.shows_all self.old.text.items self.old.limits self.old.lost
            self.new.lost (so_far (S.given self.old.sink) self.old.text.items)
            (so_far (S.given self.new.sink) self.new.text.items) entry.now.event outcome.now
            (event_words rules.now entry.now outcome.now) }
    {
        let moment = entry.event.moment();
        self.begin(moment);
        self.put_event(entry, outcome, rules);
        self.put_later();
        self.put_counts(moment, strangers);
        self.write_old(moment);
    }

    /// Appends the line of an event, if the log shows the event. If memory runs out for the line,
    /// it is counted as lost. If the log leaves out the closing of a face, the face is counted. If
    /// the limits leave out the line of a denied or dropped packet, the line is counted. Call
    /// `begin` with the time of the event before: a limited line whose second has not begun is left
    /// out.
    fn put_event(&mut self, entry: &Entry<'_>, outcome: &Result<Verdict, Memory>, rules: &Rules)
        ensures shown { shows self.old.shows_all self.old.limits entry.now.event outcome.now ≡ true
            → LogsOrLoses self.old.text.items self.new.text.items (moment_of entry.now.event)
            (event_words rules.now entry.now outcome.now) self.old.lost self.new.lost }
        ensures hidden { shows self.old.shows_all self.old.limits entry.now.event outcome.now
            ≡ false
            → (self.new.text.items ≡ self.old.text.items) × (self.new.lost ≡ self.old.lost) }
        ensures closed { self.new.closed ≡ closed_with
            (is_left_out self.old.shows_all entry.now.event outcome.now) entry.now.event
            self.old.closed }
        ensures limits { self.new.limits ≡ limits_with self.old.limits (moment_of entry.now.event)
            (limited_event self.old.shows_all entry.now.event outcome.now) }
        ensures others { self.new ≡ record self.old {
          text = self.new.text;
          closed = self.new.closed;
          lost = self.new.lost;
          limits = self.new.limits;
        } }
    {
        let limited = self.limited_event(entry, outcome);
        let held = self.holds(entry.event.moment(), limited);
        if !self.shows_all && is_plain(entry, outcome) {
            self.count_closed(&entry.event);
            return;
        }
        if held {
            return;
        }
        if put_event(self.alloc, &mut self.text, entry, outcome, rules).is_err() {
            self.lost = self.lost.saturating_add(1);
        }
    }

    /// Returns the face of an event whose line is limited, or `None` if its line is not limited.
    fn limited_event(&self, entry: &Entry<'_>, outcome: &Result<Verdict, Memory>) -> Option<u64>
        ensures { result ≡ limited_event self.now.shows_all entry.now.event outcome.now }
    {
        if self.shows_all {
            None
        } else {
            refused_on(entry, outcome)
        }
    }

    /// Returns the face of a failed send whose line is limited, or `None` if its line is not
    /// limited.
    fn limited_send(&self, face: u64) -> Option<u64>
        ensures { result ≡ limited_send self.now.shows_all face }
    {
        if self.shows_all { None } else { Some(face) }
    }

    /// Returns whether the limits leave out a line of `face`, and counts the line. For `None`, the
    /// line is not limited.
    fn holds(&mut self, moment: u64, face: Option<u64>) -> bool
        ensures held { result ≡ is_held self.old.limits moment face }
        ensures others { self.new ≡ record self.old {
          limits = limits_with self.old.limits moment face;
        } }
    {
        match face {
            Some(face) => !self.limits.admit(moment, face),
            None => false,
        }
    }

    /// Counts the event if it is the closing of a face.
    fn count_closed(&mut self, event: &LoggedEvent<'_>)
        ensures { self.new ≡ record self.old {
          closed = closed_with true event.now self.old.closed;
        } }
    {
        if let Event::FaceDown { .. } = event {
            self.closed = self.closed.saturating_add(1);
        }
    }

    /// Stores the line of a failed send until `note` is called, so that the line of the event that
    /// caused the send comes first. If memory runs out for the line, it is counted as lost. If the
    /// limits leave out the line, nothing is stored. Calls `begin` first.
    pub fn put_failed_send(
        &mut self,
        moment: u64,
        face: u64,
        endpoint: Option<SocketAddr>,
        octets: &[u8],
    )
        ensures first { self.old.text.items ≡ [] → self.new.since ≡ moment }
        ensures limits { (began : LimitsState)
            × Begins self.old.text.items self.new.text.items moment self.old.limits began
            × (self.new.limits ≡ limits_with began moment (limited_send self.old.shows_all face))
            × (is_held began moment (limited_send self.old.shows_all face) ≡ true
            → (self.new.later.items ≡ self.old.later.items) × (self.new.lost ≡ self.old.lost))
            × (is_held began moment (limited_send self.old.shows_all face) ≡ false
            → LogsOrLoses self.old.later.items self.new.later.items moment
            (failed_send_words face endpoint octets.now) self.old.lost self.new.lost) }
        ensures others { self.new ≡ record self.old {
          later = self.new.later;
          text = self.new.text;
          since = self.new.since;
          lost = self.new.lost;
          limits = self.new.limits;
        } }
    {
        self.begin(moment);
        let limited = self.limited_send(face);
        if self.holds(moment, limited) {
            return;
        }
        if put_failed_send(self.alloc, &mut self.later, moment, face, endpoint, octets).is_err() {
            self.lost = self.lost.saturating_add(1);
        }
    }

    /// Appends the stored lines of failed sends to the buffered lines. If memory runs out, the
    /// stored lines are lost, and counted once.
    fn put_later(&mut self)
        ensures text { ((self.new.text.items ≡ self.old.text.items ++ self.old.later.items)
            × (self.new.lost ≡ self.old.lost))
            ⊎ ((self.new.text.items ≡ self.old.text.items)
            × (self.new.lost ≡ one_more self.old.lost)) }
        ensures used { self.new.later.items ≡ [] }
        ensures others { self.new ≡ record self.old {
          text = self.new.text;
          later = self.new.later;
          lost = self.new.lost;
        } }
    {
        if self.text.extend_from_slice(&self.later).is_err() {
            self.lost = self.lost.saturating_add(1);
        }
        self.later.clear();
    }

    /// Calls `put_counts_now` if the time of the last report of a count (0 if there is none) is at
    /// least a minute away from `moment`. `strangers` is the total number of datagrams that were
    /// dropped because their endpoints are not peers.
    fn put_counts(&mut self, moment: u64, strangers: u64)
        ensures grows { (more : List ℕ) × (self.new.text.items ≡ self.old.text.items ++ more) }
        ensures others { self.new ≡ record self.old {
          text = self.new.text;
          closed = self.new.closed;
          strangers = self.new.strangers;
          counted = self.new.counted;
          told = self.new.told;
        } }
    {
        if moment.abs_diff(self.counted) >= COUNT_MILLISECONDS {
            self.put_counts_now(moment, strangers);
        }
    }

    /// Appends a line with the number of closed faces whose closing was left out of the log, a line
    /// with the number of datagrams that were dropped because their endpoints are not peers, and a
    /// line with the number of times that lines were lost. The lines count only what is not yet
    /// reported, and a line with the number 0 is left out. `strangers` is the total number of these
    /// datagrams, including the datagrams that are already reported.
    pub fn put_counts_now(&mut self, moment: u64, strangers: u64)
        ensures others { self.new ≡ record self.old {
          text = self.new.text;
          closed = self.new.closed;
          strangers = self.new.strangers;
          counted = self.new.counted;
          told = self.new.told;
        } }
        ensures says { (mid last : List ℕ)
            × SaysCount self.old.text.items mid moment (closed_words self.old.closed)
            self.old.closed self.new.closed
            × SaysCount mid last moment
            (stranger_words (strangers - self.old.strangers))
            (strangers - self.old.strangers) (strangers - self.new.strangers)
            × SaysCount last self.new.text.items moment
            (lost_words (self.old.lost - self.old.told))
            (self.old.lost - self.old.told) (self.old.lost - self.new.told) }
    {
        self.put_closed(moment);
        self.put_strangers(moment, strangers);
        self.put_lost(moment);
    }

    fn put_lost(&mut self, moment: u64)
        ensures says { SaysCount self.old.text.items self.new.text.items moment
            (lost_words (self.old.lost - self.old.told)) (self.old.lost - self.old.told)
            (self.old.lost - self.new.told) }
        ensures counts { (self.new.closed ≡ self.old.closed)
            × (self.new.strangers ≡ self.old.strangers) }
        ensures others { self.new ≡ record self.old {
          text = self.new.text;
          counted = self.new.counted;
          told = self.new.told;
        } }
    {
        if self.lost <= self.told {
            return;
        }
        let more = self.lost - self.told;
        let put = put_lost(self.alloc, &mut self.text, moment, more);
        if put.is_ok() {
            self.told = self.lost;
            self.counted = moment;
        }
    }

    fn put_closed(&mut self, moment: u64)
        ensures says { SaysCount self.old.text.items self.new.text.items moment
            (closed_words self.old.closed) self.old.closed self.new.closed }
        ensures strangers { self.new.strangers ≡ self.old.strangers }
        ensures lost { (self.new.lost ≡ self.old.lost) × (self.new.told ≡ self.old.told) }
        ensures others { self.new ≡ record self.old {
          text = self.new.text;
          closed = self.new.closed;
          counted = self.new.counted;
        } }
    {
        if self.closed == 0 {
            return;
        }
        let put = put_closed(self.alloc, &mut self.text, moment, self.closed);
        if put.is_ok() {
            self.closed = 0;
            self.counted = moment;
        }
    }

    fn put_strangers(&mut self, moment: u64, strangers: u64)
        ensures says { SaysCount self.old.text.items self.new.text.items moment
            (stranger_words (strangers - self.old.strangers))
            (strangers - self.old.strangers) (strangers - self.new.strangers) }
        ensures closed { self.new.closed ≡ self.old.closed }
        ensures lost { (self.new.lost ≡ self.old.lost) × (self.new.told ≡ self.old.told) }
        ensures others { self.new ≡ record self.old {
          text = self.new.text;
          strangers = self.new.strangers;
          counted = self.new.counted;
        } }
    {
        if strangers <= self.strangers {
            return;
        }
        let more = strangers - self.strangers;
        let put = put_strangers(self.alloc, &mut self.text, moment, more);
        if put.is_ok() {
            self.strangers = strangers;
            self.counted = moment;
        }
    }

    /// Writes all buffered lines to the sink.
    pub fn write_out(&mut self)
        ensures written { Appends (S.given self.old.sink) (S.given self.new.sink)
            self.old.text.items }
        ensures none { self.new.text.items ≡ [] }
        ensures others { self.new ≡ record self.old {
          text = self.new.text;
          sink = self.new.sink;
        } }
    {
        if self.text.is_empty() {
            return;
        }
        self.sink.take(&self.text);
        self.text.clear();
    }

    /// Prepares for appending a line with the time `moment`. If no lines are waiting to be written,
    /// stores `moment` as the time of the first line. If `moment` is in another second than the
    /// lines that the limits count, appends lines that tell how many lines were left out, and
    /// begins the second of `moment`.
    fn begin(&mut self, moment: u64)
        ensures first { self.old.text.items ≡ [] → self.new.since ≡ moment }
        ensures begins { Begins self.old.text.items self.new.text.items moment
            self.old.limits self.new.limits }
        ensures others { self.new ≡ record self.old {
          since = self.new.since;
          text = self.new.text;
          limits = self.new.limits;
        } }
    {
        if self.text.is_empty() {
            self.since = moment;
        }
        if self.limits.is_over(moment) {
            self.put_left_out(moment);
        }
    }

    /// Appends lines that tell how many lines the limits left out (`ndn_log::put_left_out`), and
    /// begins the second of `moment`. If memory runs out, nothing changes.
    pub fn put_left_out(&mut self, moment: u64)
        ensures told { TellsLeftOut self.old.text.items self.new.text.items moment
            self.old.limits self.new.limits }
        ensures others { self.new ≡ record self.old {
          text = self.new.text;
          limits = self.new.limits;
        } }
    {
        let put = put_left_out(self.alloc, &mut self.text, moment, &self.limits);
        if put.is_ok() {
            self.limits.begin(moment);
        }
    }

    /// Writes all buffered lines if they have at least `MOST_GATHERED` octets together, or if the
    /// time of the first of them is at least a second away from `moment`.
    fn write_old(&mut self, moment: u64)
        ensures writes { (self.new ≡ self.old) ⊎ ((self.new.text.items ≡ [])
            × Appends (S.given self.old.sink) (S.given self.new.sink) self.old.text.items) }
        ensures lost { self.new.lost ≡ self.old.lost }
    {
        if self.text.len() >= MOST_GATHERED || moment.abs_diff(self.since) >= WAIT_MILLISECONDS {
            self.write_out();
        }
    }
}
