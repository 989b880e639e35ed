//! The segments that have been asked for.

ghost use Rattle.std.specs.Prelude.{◌≡◌, map};
ghost use Rattle.std.specs.List.{count_by};
ghost use Rattle.interest_pipeline.specs.Places.{expire, is_in_flight, is_lost, sooner, soonest, spare};

use crate::place::{Place, Sending};
use crate::window::GREATEST_WINDOW;
use std::alloc::{AllocError, Global};
use std::collections::VecDeque;
use std::marker::Model;

/// The segments from the least unanswered one on that have been asked for, in a ring that never
/// grows.
#[derive(Drop)]
pub(crate) struct Flight {
    limit: usize,
    base: u64,
    places: VecDeque<Place>,
    in_flight: usize,
    lost: usize,
    last: Option<u64>,
}

impl Model for Flight {
    ghost use Rattle.interest_pipeline.specs.Flight.{FlightState};

    ghost Value = { FlightState };

    ghost use Rattle.std.specs.Prelude.{◌≡◌, ◌≤◌, ◌<◌, ◌+◌, ◌^◌, length};
    ghost use Rattle.std.specs.List.{count_by};
    ghost use Rattle.interest_pipeline.specs.declared.window.TheConstants.{GREATEST_WINDOW};
    ghost use Rattle.std.specs.VecDeque.{deque_capacity};
    ghost use Rattle.interest_pipeline.specs.Places.{is_in_flight, is_lost};

    ghost view = { λ f. record {
      limit = f.limit;
      base = f.base;
      places = f.places.items;
      last = f.last;
    } };

    ghost invariant = { λ f. (f.limit ≤ GREATEST_WINDOW) × (f.limit ≤ deque_capacity f.places)
        × (length f.places.items ≤ f.limit) × (f.base + length f.places.items < 2 ^ 64)
        × (f.in_flight ≡ count_by is_in_flight f.places.items)
        × (f.lost ≡ count_by is_lost f.places.items) };
}

impl Flight {
    ghost use Rattle.std.specs.Prelude.{◌≡◌, ◌≤◌, ◌<◌, ◌+◌, ◌-◌, ◌^◌, length, map, position, slice_get, slice_set, IfOk, IfSome, IsTrue, ◌↔◌, ℕ, Some, option_map};
    ghost use Rattle.std.specs.List.{list_any};
    ghost use Rattle.interest_pipeline.specs.declared.place.Place.TheVariants.{InFlight, Lost};
    ghost use Rattle.interest_pipeline.specs.Places.{expire, is_lost, is_spent, slows, soonest};
    ghost use Rattle.interest_pipeline.specs.Flight.{IsEnded, IsIndex, answered, ended, given_up, nothing_sent, has_new, in_flight_of, pick, place_of, put, advanced, spared_all, with_places};

    /// Returns the flight before any segment has been asked for.
    pub fn new(alloc: Global, limit: usize) -> Result<Flight, AllocError>
        requires { limit ≤ GREATEST_WINDOW }
        ensures { IfOk result (λ f. f ≡ nothing_sent limit) }
    {
        let places = VecDeque::with_capacity(alloc, limit)?;
        Ok(Flight {
            limit,
            base: 0,
            places,
            in_flight: 0,
            lost: 0,
            last: None,
        })
    }

    /// Returns how many segments are in flight.
    pub fn in_flight(&self) -> usize
        ensures { result ≡ in_flight_of self.now }
    {
        self.in_flight
    }

    /// Returns the number of the segment at an index, counted from the least unanswered one.
    pub fn number(&self, index: usize) -> u64
        requires { index ≤ length self.now.places }
        ensures { result ≡ self.now.base + index }
    {
        self.base + index as u64
    }

    /// Returns the index of the segment to send: the first lost one, or else a new one.
    pub fn pick(&self) -> Option<usize>
        ensures exact { result ≡ pick self.now }
        ensures index { IfSome result (λ index. IsIndex self.now index) }
    {
        match self.first_lost() {
            Some(index) => Some(index),
            None if self.has_new() => Some(self.places.len()),
            None => None,
        }
    }

    /// Returns the index of the first lost segment.
    fn first_lost(&self) -> Option<usize>
        ensures exact { result ≡ position is_lost self.now.places }
        ensures within { IfSome result (λ index. index < length self.now.places) }
    {
        if self.lost == 0 {
            return None;
        }
        self.places.iter().position(|place| place.is_lost())
    }

    /// Returns whether a new segment may be asked for.
    fn has_new(&self) -> bool
        ensures { result ≡ has_new self.now }
    {
        let next = self.base + self.places.len() as u64;
        self.places.len() < self.limit
            && next < u64::MAX
            && self.last.is_none_or(|last| next <= last)
    }

    /// Returns what is known of the segment at an index.
    pub fn at(&self, index: usize) -> Option<Place>
        ensures { result ≡ slice_get self.now.places index }
    {
        self.places.get(index).copied()
    }

    /// Returns what is known of the segment with a number.
    pub fn place_of(&self, number: u64) -> Option<Place>
        ensures { result ≡ place_of self.now number }
    {
        if number < self.base {
            return Some(Place::Answered);
        }
        self.at(self.index_of(number))
    }

    /// Returns the index of the segment with a number.
    fn index_of(&self, number: u64) -> usize
        ensures { result ≡ number - self.now.base }
    {
        number.saturating_sub(self.base) as usize
    }

    /// Puts the segment at an index in flight.
    pub fn send(&mut self, index: usize, sending: Sending)
        requires { IsIndex self.old index }
        ensures { self.new ≡ with_places self.old (put self.old.places index (InFlight sending)) }
    {
        if index < self.places.len() {
            self.set(index, Place::InFlight(sending));
        } else {
            self.places.push_back(Place::InFlight(sending)).unwrap();
            self.in_flight += 1;
        }
    }

    /// Sets what is known of the segment at an index. Past the last one, nothing changes.
    fn set(&mut self, index: usize, place: Place)
        ensures { self.new ≡ with_places self.old (slice_set self.old.places index place) }
    {
        if index < self.places.len() {
            let before = self.places[index];
            self.places[index] = place;
            self.in_flight -= usize::from(before.is_in_flight());
            self.in_flight += usize::from(place.is_in_flight());
            self.lost -= usize::from(before.is_lost());
            self.lost += usize::from(place.is_lost());
        }
    }

    /// Marks the segment with a number as answered.
    pub fn answer(&mut self, number: u64)
        ensures { self.new ≡ answered self.old number }
    {
        self.set(self.index_of(number), Place::Answered);
        self.advance();
    }

    /// Removes the answered segments at the front.
    fn advance(&mut self)
        ensures { self.new ≡ advanced self.old }
    {
        while let Some(Place::Answered) = self.places.front() {
            self.places.pop_front();
            self.base += 1;
        }
    }

    /// Marks the segment with a number as lost.
    pub fn lose(&mut self, number: u64, sending: Sending)
        ensures { self.new ≡ with_places self.old
            (slice_set self.old.places (number - self.old.base) (Lost sending)) }
    {
        self.set(self.index_of(number), Place::Lost(sending));
    }

    /// Marks the segments whose time is out as lost.
    pub fn expire(&mut self, now: u64)
        ensures { self.new ≡ with_places self.old (map (expire now) self.old.places) }
    {
        expire_all(self.places.make_contiguous(), now);
        self.in_flight = count_in_flight(&self.places);
        self.lost = count_lost(&self.places);
    }

    /// Takes care that no segment in flight halves the window.
    pub fn spare(&mut self)
        ensures { self.new ≡ spared_all self.old }
    {
        spare_all(self.places.make_contiguous());
        self.in_flight = count_in_flight(&self.places);
        self.lost = count_lost(&self.places);
    }

    /// Returns whether a segment whose time is out halves the window.
    pub fn slows(&self, now: u64) -> bool
        ensures { result ≡ list_any (slows now) self.now.places }
    {
        self.places.iter().any(|place| place.slows(now))
    }

    /// Returns the first segment that is lost and may not be sent again.
    pub fn given_up(&self) -> Option<u64>
        ensures { result ≡ given_up self.now }
    {
        match self.first_spent() {
            Some(index) => Some(self.base + index as u64),
            None => None,
        }
    }

    /// Returns the index of the first segment that is lost and may not be sent again.
    fn first_spent(&self) -> Option<usize>
        ensures exact { result ≡ position is_spent self.now.places }
        ensures within { IfSome result (λ index. index < length self.now.places) }
    {
        if self.lost == 0 {
            return None;
        }
        self.places.iter().position(|place| place.is_spent())
    }

    /// Returns the least deadline of the segments in flight.
    pub fn soonest(&self) -> Option<u64>
        ensures { result ≡ soonest self.now.places }
    {
        let (front, back) = self.places.as_slices();
        sooner(soonest(front), soonest(back))
    }

    /// Sets the number of the last segment, unless it is known, and forgets the segments above it.
    pub fn end(&mut self, last: u64)
        ensures { self.new ≡ ended self.old.last self.old last }
    {
        if self.last.is_some() {
            return;
        }
        self.last = Some(last);
        let count = last.saturating_add(1).saturating_sub(self.base);
        self.places.truncate(count as usize);
        self.in_flight = count_in_flight(&self.places);
        self.lost = count_lost(&self.places);
    }

    /// Returns whether all segments have been answered.
    pub fn is_done(&self) -> bool
        ensures { IsTrue result ↔ IsEnded self.now }
    {
        match self.last {
            None => false,
            Some(last) => last < self.base,
        }
    }
}

/// Returns how many of the segments are in flight.
fn count_in_flight(places: &VecDeque<Place>) -> usize
    ensures { result ≡ count_by is_in_flight places.now.items }
{
    places.iter().filter(|place| place.is_in_flight()).count()
}

/// Returns how many of the segments are lost.
fn count_lost(places: &VecDeque<Place>) -> usize
    ensures { result ≡ count_by is_lost places.now.items }
{
    places.iter().filter(|place| place.is_lost()).count()
}

/// Marks the segments whose time is out as lost.
fn expire_all(places: &mut [Place], now: u64)
    ensures { places.new ≡ map (expire now) places.old }
{
    for place in places.iter_mut() {
        *place = place.expired(now);
    }
}

/// Takes care that no segment in flight halves the window.
fn spare_all(places: &mut [Place])
    ensures { places.new ≡ map spare places.old }
{
    for place in places.iter_mut() {
        *place = place.spared();
    }
}

/// Returns the least deadline of the segments in flight.
fn soonest(places: &[Place]) -> Option<u64>
    ensures { result ≡ soonest places.now }
{
    let mut least = None;
    for place in places {
        least = sooner(least, place.deadline());
    }
    least
}

/// Returns the sooner of two moments.
fn sooner(a: Option<u64>, b: Option<u64>) -> Option<u64>
    ensures { result ≡ sooner a b }
{
    match (a, b) {
        (Some(a), Some(b)) => Some(a.min(b)),
        (None, b) => b,
        (a, None) => a,
    }
}
