//! The estimate of the round-trip time, and the retransmission timeout (RFC 6298).

ghost use Rattle.std.specs.Prelude.{◌≡◌, ◌≤◌, ◌*◌, Some};
ghost use Rattle.interest_pipeline.specs.Rtt.{IsSmooth, IsWithin, first, later, rto_of};

use std::marker::Model;

/// The retransmission timeout before the first sample, in microseconds (RFC 6298, section 2, rule
/// 2.1).
pub const FIRST_RTO: u64 = 1_000_000;

/// The least retransmission timeout, in microseconds. RFC 6298, section 2, rule 2.4, recommends one
/// second; `ndncatchunks` has this value.
pub const LEAST_RTO: u64 = 200_000;

/// The greatest retransmission timeout, in microseconds (RFC 6298, section 2, rule 2.5).
pub const GREATEST_RTO: u64 = 60_000_000;

/// The granularity of the clock, in microseconds: the G of RFC 6298, section 2.
pub const GRANULARITY: u64 = 1_000;

/// The smoothed round-trip time and its variation (RFC 6298, section 2), in parts of a microsecond.
#[derive(Clone, Copy, Debug, PartialEq, Eq)]
pub struct Smoothed {
    /// 8 * SRTT.
    pub srtt8: u64,
    /// 4 * RTTVAR.
    pub rttvar4: u64,
}

/// The estimate of the round-trip time, and the retransmission timeout (RFC 6298, sections 2 and
/// 5). All times are in microseconds. SRTT is kept in eighths and RTTVAR in quarters of a
/// microsecond.
#[derive(Drop)]
pub struct RttEstimator {
    smoothed: Option<Smoothed>,
    rto: u64,
}

impl Model for RttEstimator {
    ghost use Rattle.interest_pipeline.specs.Rtt.{Rtt, IsSmooth, IsWithin};

    ghost Value = { Rtt };

    ghost view = { λ e. record { smoothed = e.smoothed; rto = e.rto } };

    ghost invariant = { λ e. IsSmooth e.smoothed × IsWithin e.rto };
}

impl RttEstimator {
    ghost use Rattle.std.specs.Prelude.{◌≡◌, ◌≤◌};
    ghost use Rattle.interest_pipeline.specs.Rtt.{IsWithin, backed_off, sampled, unmeasured};

    /// Returns the estimator before any sample. The timeout is `FIRST_RTO`.
    pub fn new() -> RttEstimator
        ensures { result ≡ unmeasured }
    {
        RttEstimator {
            smoothed: None,
            rto: FIRST_RTO,
        }
    }

    /// Takes a sample: the time from the sending of a segment that was sent once to its answer, in
    /// microseconds. The timeout then follows from the estimate. A sample above `GREATEST_RTO`
    /// counts as `GREATEST_RTO`.
    pub fn sample(&mut self, time: u64)
        ensures { self.new ≡ sampled self.old time }
    {
        let time = time.min(GREATEST_RTO);
        let smoothed = match self.smoothed {
            None => first(time),
            Some(smoothed) => later(smoothed, time),
        };
        self.smoothed = Some(smoothed);
        self.rto = rto_of(smoothed);
    }

    /// Doubles the timeout, up to `GREATEST_RTO`, after a timeout (RFC 6298, section 5, rule 5.5).
    pub fn back_off(&mut self)
        ensures { self.new ≡ backed_off self.old }
    {
        self.rto = (2 * self.rto).min(GREATEST_RTO);
    }

    /// Returns the retransmission timeout in microseconds, from `LEAST_RTO` to `GREATEST_RTO`.
    pub fn rto(&self) -> u64
        ensures value { result ≡ self.now.rto }
        ensures within { IsWithin result }
    {
        self.rto
    }
}

/// Returns the estimate after the first sample.
fn first(time: u64) -> Smoothed
    requires { time ≤ GREATEST_RTO }
    ensures value { result ≡ first time }
    ensures smooth { IsSmooth (Some result) }
{
    Smoothed {
        srtt8: 8 * time,
        rttvar4: 2 * time,
    }
}

/// Returns the estimate after another sample.
fn later(smoothed: Smoothed, time: u64) -> Smoothed
    requires smooth { IsSmooth (Some smoothed) }
    requires time { time ≤ GREATEST_RTO }
    ensures value { result ≡ later smoothed time }
    ensures smooth { IsSmooth (Some result) }
{
    let distance = (smoothed.srtt8 / 8).abs_diff(time);
    Smoothed {
        srtt8: smoothed.srtt8 - smoothed.srtt8 / 8 + time,
        rttvar4: smoothed.rttvar4 - smoothed.rttvar4 / 4 + distance,
    }
}

/// Returns the timeout for an estimate.
fn rto_of(smoothed: Smoothed) -> u64
    requires { IsSmooth (Some smoothed) }
    ensures value { result ≡ rto_of smoothed }
    ensures within { IsWithin result }
{
    let rto = smoothed.srtt8 / 8 + smoothed.rttvar4.max(GRANULARITY);
    rto.clamp(LEAST_RTO, GREATEST_RTO)
}
