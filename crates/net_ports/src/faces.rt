//! The connections that have faces.
ghost use Rattle.std.specs.Prelude.{◌↔◌, ◌≡◌, ◌==◌, find, IsTrue};
ghost use Rattle.std.specs.Option.{option_map};
ghost use Rattle.net_ports.specs.Holdings.{IsBusy, IsBusyNow};

use crate::wire::Wire;
use face_table::Link;
use ndn_streams::Connection;

/// A connection and its face.
#[derive(Drop)]
pub struct ConnectedFace {
    pub link: Link,
    /// The number of the connection.
    pub number: u64,
    pub face: u64,
    pub connection: Connection<Wire>,
}

impl ConnectedFace {
    /// Returns whether the connection may have a packet, or has octets to write.
    fn is_busy(&self) -> bool
        ensures { IsTrue result ↔ IsBusyNow self.now.connection }
    {
        self.connection.may_go_on() || self.connection.is_writing()
    }
}

/// Notes that the socket of the connection with this number may go on.
pub fn wake(faces: &mut [ConnectedFace], number: u64) {
    for face in faces.iter_mut() {
        if face.number == number {
            face.connection.wake();
        }
    }
}

/// Returns whether some connection may go on.
pub fn may_go_on(faces: &[ConnectedFace]) -> bool {
    faces.iter().any(|face| face.connection.may_go_on())
}

/// Returns whether the face is that of a connection that may go on, or whose octets wait to be
/// written.
pub fn is_busy(faces: &[ConnectedFace], face: u64) -> bool
    ensures { IsTrue result ↔ IsBusy faces.now face }
{
    match connected(faces, face) {
        Some(held) => held.is_busy(),
        None => false,
    }
}

/// Returns the connection with this face.
fn connected(faces: &[ConnectedFace], face: u64) -> Option<&ConnectedFace>
    ensures { option_map (λ held. held.now) result ≡ find (λ held. held.face == face) faces.now }
{
    faces.iter().find(|held| held.face == face)
}

/// Ends the connections that have been in the middle of a packet for `limit` milliseconds at the
/// time `now`.
pub fn check(faces: &mut [ConnectedFace], now: u64, limit: u64) {
    for face in faces.iter_mut() {
        face.connection.check(now, limit);
    }
}
