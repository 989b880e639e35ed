//! The congestion window (RFC 5681, section 3.1), counted in segments.

use std::marker::Model;

/// The greatest window that can be asked for, in segments.
pub const GREATEST_WINDOW: usize = 1024;

/// The window at the start, and the least window after a loss, in segments.
const LEAST_WINDOW: usize = 2;

/// How many segments may be in flight.
#[derive(Drop)]
pub(crate) struct Window {
    limit: usize,
    cwnd: usize,
    ssthresh: usize,
    counted: usize,
}

impl Model for Window {
    ghost use Rattle.std.specs.Prelude.{◌≤◌};
    ghost use Rattle.interest_pipeline.specs.declared.window.TheConstants.{GREATEST_WINDOW};
    ghost use Rattle.interest_pipeline.specs.Window.{WindowState};

    ghost Value = { WindowState };

    ghost view = { λ w. record {
      limit = w.limit;
      cwnd = w.cwnd;
      ssthresh = w.ssthresh;
      counted = w.counted;
    } };

    ghost invariant = { λ w. (w.limit ≤ GREATEST_WINDOW) × (w.counted ≤ w.limit)
        × (w.cwnd ≤ w.limit) × (w.ssthresh ≤ w.limit) };
}

impl Window {
    ghost use Rattle.std.specs.Prelude.{◌≡◌, ◌≤◌};
    ghost use Rattle.interest_pipeline.specs.Window.{counting, grown, half_of, halved, first_window};

    /// Returns the first window: slow start from two segments, or one, if the greatest window is
    /// one.
    pub fn new(limit: usize) -> Window
        requires { limit ≤ GREATEST_WINDOW }
        ensures { result ≡ first_window limit }
    {
        Window {
            limit,
            cwnd: LEAST_WINDOW.min(limit),
            ssthresh: limit,
            counted: 0,
        }
    }

    pub fn cwnd(&self) -> usize
        ensures { result ≡ self.now.cwnd }
    {
        self.cwnd
    }

    /// Opens the window for an answer.
    pub fn grow(&mut self)
        ensures { self.new ≡ grown self.old }
    {
        if self.cwnd < self.ssthresh {
            self.cwnd += 1;
        } else {
            self.count();
        }
    }

    /// Counts an answer in congestion avoidance.
    fn count(&mut self)
        ensures { self.new ≡ counting self.old }
    {
        if self.counted + 1 < self.cwnd {
            self.counted += 1;
        } else {
            self.cwnd = (self.cwnd + 1).min(self.limit);
            self.counted = 0;
        }
    }

    /// Halves the window after a loss.
    pub fn halve(&mut self)
        ensures { self.new ≡ halved self.old }
    {
        let half = (self.cwnd / 2).max(LEAST_WINDOW).min(self.limit);
        self.cwnd = half;
        self.ssthresh = half;
        self.counted = 0;
    }
}
