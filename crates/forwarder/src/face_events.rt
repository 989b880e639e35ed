ghost use Rattle.std.specs.Prelude.{◌≡◌, []};
ghost use Rattle.ndn_names.specs.View.{components};
ghost use Rattle.forwarder.specs.Event.{FaceUp, FaceDown};
ghost use Rattle.forwarder.specs.Node.{IsStep};
ghost use Rattle.forwarder.specs.Policy.{is_far};
ghost use Rattle.forwarder.specs.Request.{is_out_of_scope};
ghost use Rattle.forwarder.specs.State.{IsSound, policy_of, state_of};
ghost use Rattle.forwarder.specs.Verdict.{verdict_of};

use crate::event::Scope;
use crate::request::is_local_name;
use crate::state::State;
use crate::verdict::{DropReason, Verdict};
use ndn_names::Name;
use pit_fib::MAX_FACES;

impl State {
    /// Advances time to `now`. Then opens the face, unless its number is 0, the face is already
    /// open, or 64 faces are open.
    pub fn open(&mut self, face: u64, scope: Scope, now: u64) -> Verdict
        requires { IsSound (state_of self.old) }
        ensures { IsStep (state_of self.old) (FaceUp face scope now)
            (record { verdict = verdict_of result; sends = [] }) (state_of self.new) }
    {
        self.pass_time(now);
        if face == 0 {
            return Verdict::Dropped(DropReason::BadFace);
        }
        if self.faces.contains(face) {
            return Verdict::Dropped(DropReason::FaceOpen);
        }
        if self.faces.len() >= MAX_FACES {
            return Verdict::Dropped(DropReason::FacesFull);
        }
        self.faces.open(face, scope);
        Verdict::Passed
    }

    /// Advances time to `now`. Then, if the face is open, closes the face, and removes the face's
    /// next hops, routes, in-records and out-records, and all out-records of keys that then have no
    /// in-record. Also increases the version of the lists of routes and strategies by 1, up to the
    /// greatest u64.
    pub fn close(&mut self, face: u64, now: u64) -> Verdict
        requires { IsSound (state_of self.old) }
        ensures { IsStep (state_of self.old) (FaceDown face now)
            (record { verdict = verdict_of result; sends = [] }) (state_of self.new) }
    {
        self.pass_time(now);
        if !self.faces.contains(face) {
            return Verdict::Dropped(DropReason::NoFace);
        }
        self.faces.remove(face);
        self.tables.fib.close_face(face);
        self.pit.close_face(face);
        self.next_version();
        Verdict::Passed
    }

    /// Returns whether the name begins with `/localhost` and the face leads to another machine.
    pub fn is_out_of_scope(&self, face: u64, name: Name<'_>) -> bool
        ensures { result
            ≡ is_out_of_scope (policy_of self.entry.now) face (components name.entry) }
    {
        is_local_name(name) && self.faces.is_far(face)
    }
}
