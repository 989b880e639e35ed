//! The pipeline of Interests for the segments of a file.

use crate::fault::PipelineFault;
use crate::flight::Flight;
use crate::place::{Place, Sending};
use crate::rtt::RttEstimator;
use crate::window::{GREATEST_WINDOW, Window};
use std::alloc::Global;
use std::marker::Model;

/// Which segment of a file to ask for at a moment, how many Interests may be in flight, and when an
/// unanswered Interest is sent again.
///
/// Moments are in microseconds, of a clock that never goes back. If it goes back, the time of an
/// answer from a later moment counts as 0, and timeouts come later or sooner than they should.
/// After the pipeline has been made, it takes no memory.
#[derive(Drop)]
pub struct Pipeline {
    retries: u32,
    rtt: RttEstimator,
    window: Window,
    flight: Flight,
}

impl Model for Pipeline {
    ghost use Rattle.interest_pipeline.specs.Pipeline.{PipelineState};

    ghost Value = { PipelineState };

    ghost view = { λ p. record {
      retries = p.retries;
      rtt = p.rtt;
      window = p.window;
      flight = p.flight;
    } };
}

impl Pipeline {
    ghost use Rattle.std.specs.Prelude.{◌≡◌, ◌↔◌, IfSome, MatchResult, IsTrue, Some};
    ghost use Rattle.interest_pipeline.specs.Flight.{IsEnded, IsIndex, given_up, in_flight_of};
    ghost use Rattle.interest_pipeline.specs.Pipeline.{IsRefused, after_answer, after_expire, after_last, after_loss, after_next, choice, deadline_of, number_to_send, sending_at, slowed, start, with_answer};

    /// Returns a pipeline that has sent nothing. `limit` is the greatest window, in segments, and
    /// how many segments from the least unanswered one on may be asked for. A segment is sent at
    /// most `retries` + 1 times.
    ///
    /// Returns `BadWindow` if `limit` is 0 or above `GREATEST_WINDOW`. The only other fault is
    /// `Memory`.
    pub fn new(alloc: Global, limit: usize, retries: u32) -> Result<Pipeline, PipelineFault>
        ensures { MatchResult result (λ p. p ≡ start limit retries) (IsRefused limit) }
    {
        if limit == 0 || limit > GREATEST_WINDOW {
            return Err(PipelineFault::BadWindow);
        }
        let Ok(flight) = Flight::new(alloc, limit) else {
            return Err(PipelineFault::Memory);
        };
        Ok(Pipeline {
            retries,
            rtt: RttEstimator::new(),
            window: Window::new(limit),
            flight,
        })
    }

    /// Returns the number of the segment whose Interest is to be sent at this moment, and counts it
    /// as sent: the first lost one, or else the next new one. Returns `None` if the window has no
    /// room, if there is nothing to send, or if a segment is given up.
    pub fn next(&mut self, now: u64) -> Option<u64>
        ensures number { result ≡ number_to_send self.old }
        ensures after { self.new ≡ after_next self.old now }
    {
        let index = self.choice()?;
        let number = self.flight.number(index);
        let sending = self.sending_at(now, index);
        self.flight.send(index, sending);
        Some(number)
    }

    /// Returns the index of the segment to send, counted from the least unanswered one.
    fn choice(&self) -> Option<usize>
        ensures exact { result ≡ choice self.now }
        ensures index { IfSome result (λ index. IsIndex self.now.flight index) }
    {
        if self.gave_up().is_some() || self.window.cwnd() <= self.flight.in_flight() {
            return None;
        }
        self.flight.pick()
    }

    /// Returns the sending of the segment at an index.
    fn sending_at(&self, now: u64, index: usize) -> Sending
        ensures { result ≡ sending_at self.now now index }
    {
        let left = match self.flight.at(index) {
            Some(Place::Lost(sending)) => sending.left.saturating_sub(1),
            _ => self.retries,
        };
        Sending {
            moment: now,
            deadline: now.saturating_add(self.rtt.rto()),
            left,
            spared: false,
        }
    }

    /// Takes an answer to the segment with a number, which came at this moment. A segment that has
    /// not been asked for, or has been answered, changes nothing. An answer to a lost segment
    /// counts like one that came in time.
    pub fn answered(&mut self, number: u64, now: u64)
        ensures { self.new ≡ after_answer self.old number now }
    {
        match self.flight.place_of(number) {
            Some(Place::InFlight(sending)) => self.take_answer(number, now, sending),
            Some(Place::Lost(sending)) => self.take_answer(number, now, sending),
            _ => {}
        }
    }

    /// Takes an answer to a sending.
    fn take_answer(&mut self, number: u64, now: u64, sending: Sending)
        ensures { self.new ≡ with_answer self.old number now sending }
    {
        if sending.left == self.retries {
            self.rtt.sample(now.saturating_sub(sending.moment));
        }
        self.window.grow();
        self.flight.answer(number);
    }

    /// Takes a loss of the segment with a number, without a timeout: a Nack for Congestion
    /// (NDNLPv2). A segment that is not in flight changes nothing.
    pub fn lost(&mut self, number: u64)
        ensures { self.new ≡ after_loss self.old number }
    {
        if let Some(Place::InFlight(sending)) = self.flight.place_of(number) {
            self.flight.lose(number, sending);
            if !sending.spared {
                self.slow();
            }
        }
    }

    /// Halves the window. Segments that were sent before do not halve it again.
    fn slow(&mut self)
        ensures { self.new ≡ slowed self.old }
    {
        self.window.halve();
        self.flight.spare();
    }

    /// Takes the loss of each segment in flight whose deadline is this moment or an earlier one. If
    /// this halves the window, the timeout is doubled too.
    pub fn expire(&mut self, now: u64)
        ensures { self.new ≡ after_expire self.old now }
    {
        let slows = self.flight.slows(now);
        self.flight.expire(now);
        if slows {
            self.slow();
            self.rtt.back_off();
        }
    }

    /// Returns the moment at which `expire` is to be called, or `None` if no segment is in flight
    /// or a segment is given up.
    pub fn deadline(&self) -> Option<u64>
        ensures { result ≡ deadline_of self.now }
    {
        if self.gave_up().is_some() {
            return None;
        }
        self.flight.soonest()
    }

    /// Sets the number of the last segment, from a FinalBlockId. Segments above it are forgotten.
    /// Only the first call counts.
    pub fn set_last(&mut self, last: u64)
        ensures { self.new ≡ after_last self.old last }
    {
        self.flight.end(last);
    }

    /// Returns whether the last segment is known, and all segments up to it have been answered.
    pub fn is_done(&self) -> bool
        ensures { IsTrue result ↔ IsEnded self.now.flight }
    {
        self.flight.is_done()
    }

    /// Returns the segment that is given up: the first one that is lost and was sent `retries` + 1
    /// times. An answer to it can still come.
    pub fn gave_up(&self) -> Option<u64>
        ensures { result ≡ given_up self.now.flight }
    {
        self.flight.given_up()
    }

    /// Returns the window: how many segments may be in flight.
    pub fn window(&self) -> usize
        ensures { result ≡ self.now.window.cwnd }
    {
        self.window.cwnd()
    }

    /// Returns how many segments are in flight.
    pub fn in_flight(&self) -> usize
        ensures { result ≡ in_flight_of self.now.flight }
    {
        self.flight.in_flight()
    }

    /// Returns the retransmission timeout, in microseconds.
    pub fn rto(&self) -> u64
        ensures { result ≡ self.now.rtt.rto }
    {
        self.rtt.rto()
    }
}
