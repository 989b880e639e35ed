//! What is known of a segment that has been asked for.

/// The latest sending of a segment.
#[derive(Clone, Copy, Debug)]
pub(crate) struct Sending {
    /// When it was sent, in microseconds.
    pub moment: u64,
    /// When it is lost, if no answer has come, in microseconds.
    pub deadline: u64,
    /// How often the segment may still be sent.
    pub left: u32,
    /// Whether its loss does not halve the window, because the window has been halved since.
    pub spared: bool,
}

/// A segment that has been asked for.
#[derive(Clone, Copy, Debug)]
pub(crate) enum Place {
    /// The segment has been answered.
    Answered,
    /// An answer is awaited.
    InFlight(Sending),
    /// The latest sending was lost: the segment waits to be sent again.
    Lost(Sending),
}

impl Place {
    ghost use Rattle.std.specs.Prelude.{◌≡◌};
    ghost use Rattle.interest_pipeline.specs.Places.{deadline_of, expire, is_in_flight, is_lost, is_spent, slows, spare};

    pub fn is_in_flight(self) -> bool
        ensures { result ≡ is_in_flight self }
    {
        matches!(self, Place::InFlight(_))
    }

    pub fn is_lost(self) -> bool
        ensures { result ≡ is_lost self }
    {
        matches!(self, Place::Lost(_))
    }

    /// Returns whether the segment is lost at this moment, and its loss halves the window.
    pub fn slows(self, now: u64) -> bool
        ensures { result ≡ slows now self }
    {
        match self {
            Place::InFlight(sending) => sending.deadline <= now && !sending.spared,
            _ => false,
        }
    }

    /// Returns whether the segment is lost, and may not be sent again.
    pub fn is_spent(self) -> bool
        ensures { result ≡ is_spent self }
    {
        match self {
            Place::Lost(sending) => sending.left == 0,
            _ => false,
        }
    }

    pub fn deadline(self) -> Option<u64>
        ensures { result ≡ deadline_of self }
    {
        match self {
            Place::InFlight(sending) => Some(sending.deadline),
            _ => None,
        }
    }

    /// Returns the place after a loss, if the time of the segment is out.
    pub fn expired(self, now: u64) -> Place
        ensures { result ≡ expire now self }
    {
        match self {
            Place::InFlight(sending) if sending.deadline <= now => Place::Lost(sending),
            _ => self,
        }
    }

    /// Returns the place after the window has been halved.
    pub fn spared(self) -> Place
        ensures { result ≡ spare self }
    {
        match self {
            Place::InFlight(mut sending) => {
                sending.spared = true;
                Place::InFlight(sending)
            }
            _ => self,
        }
    }
}
