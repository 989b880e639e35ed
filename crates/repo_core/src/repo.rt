ghost use Rattle.std.specs.Prelude.{◌≡◌, ◌+◌, ◌≤◌, ℕ, List, true, false, None, Some, IfOk, IfSome, IsOk, IsTrue, OnErr, OnOk, length};
ghost use Rattle.std.specs.FinMap as map;
ghost use Rattle.std.specs.Option.{option_map};
ghost use Rattle.sha2.specs.Sha256.{sha256};
ghost use Rattle.ndn_tlv.specs.Element.{Field};
ghost use Rattle.ndn_names.specs.Name.{octets_of};
ghost use Rattle.ndn_names.specs.View.{components};
ghost use Rattle.repo_core.specs.Objects.{AreObjects, object_of, served};
ghost use Rattle.repo_core.specs.Reading.{plain, repo_command_at, verb_at};
ghost use Rattle.repo_core.specs.Repo.{IsCommandPrepared, IsOfferPrepared, IsWithinLimits, after_command, after_delete, after_insert, after_offer, is_insert_at, is_repo_full, reply_to, MakesWant};
ghost use Rattle.repo_core.specs.Room.{AreAlike};
ghost use Rattle.repo_core.specs.Wants.{wants_after, is_wanted};

use crate::command::{Asked, command_in, verb_after};
use crate::object::Object;
use crate::objects::Objects;
use crate::reply::{RepoReply, Want};
use crate::types::{BAD_PARAMETERS, FULL, NOT_FOUND, OK, PENDING};
use crate::verb::Verb;
use crate::want_names::{Names, names_for};
use crate::wants::Wants;
use ndn_names::{Name, NameBuf};
use ndn_packets::{Data, Interest};
use ndn_tlv::Memory;
use std::alloc::Global;
use std::marker::Model;

/// The greatest number of wants (pending inserts).
pub const MAX_WANTS: usize = 64;

/// The greatest number of objects and wants together.
pub const MAX_HELD: usize = 65_536;

/// Law: the limits are 64 wants (pending inserts), and 65,536 objects (stored Data) and wants
/// together.
pub fn repo_limits_are_as_promised()
    ensures { (MAX_WANTS ≡ 64) × (MAX_HELD ≡ 65536) }
{}

/// A repository stores the Data that insert commands request, and serves the stored Data. A
/// repository has at most 64 wants (pending inserts), and at most 65,536 objects (stored Data) and
/// wants together.
#[derive(Drop)]
pub struct Repo {
    alloc: Global,
    start: NameBuf,
    objects: Objects,
    wants: Wants,
    // The memory that is prepared for one insert, and the object that is prepared for one offer.
    names: Option<Names>,
    object: Option<Object>,
}

impl Model for Repo {
    ghost use Rattle.std.specs.Prelude.{◌<◌, IfSome};
    ghost use Rattle.std.specs.Option.{option_map};
    ghost use Rattle.repo_core.specs.Objects.{AreObjects};
    ghost use Rattle.repo_core.specs.Repo.{IsWithinLimits, RepoState, state_code};
    ghost use Rattle.repo_core.specs.Room.{AreAlike};

    ghost Value = { RepoState };

    ghost coded = { state_code };

    ghost view = { λ r. record {
      start = r.start;
      held = record { objects = r.objects.table; wants = r.wants };
      prepared_want = option_map (λ n. n.key) r.names;
      prepared_object = r.object;
    } };

    ghost invariant = { λ r. IfSome r.names AreAlike × IfSome r.object (λ _. 0 < r.objects.room)
        × IsWithinLimits (record { objects = r.objects.table; wants = r.wants })
        × AreObjects r.objects.table };
}

impl Repo {
    /// Creates an empty repository. The names of its commands begin with `prefix`.
    pub fn new(alloc: Global, prefix: NameBuf) -> Result<Repo, Memory>
        ensures { IfOk result (λ r. r ≡ record {
          start = prefix;
          held = record { objects = map.empty; wants = map.empty };
          prepared_want = None;
          prepared_object = None;
        }) }
    {
        let wants = Wants::new(alloc)?;
        Ok(Repo {
            alloc,
            start: prefix,
            objects: Objects::new(alloc),
            wants,
            names: None,
            object: None,
        })
    }

    /// Returns the verb of a name that begins with the repository's prefix and a verb, or `None`
    /// for every other name. The name of every command begins with the prefix and a verb.
    pub fn verb_of(&self, name: Name<'_>) -> Option<Verb>
        ensures { result ≡ verb_at self.now.start (components name.entry) }
    {
        verb_after(self.start.view(), name)
    }

    /// Applies a command. The name of a command is the prefix, the verb, the parameters and the
    /// digest of the Interest's parameters. `now` is in milliseconds since 1970.
    ///
    /// An object (a stored Data) matches a command if the object answers an Interest with the Name
    /// and the CanBePrefix flag in the command's parameters. The equal want is the want (pending
    /// insert) with this Name and this flag, if there is one. An insert is answered 200 with the
    /// number of matching objects if at least one object matches. If no object matches, the insert
    /// renews the equal want. If no object matches and there is no equal want, the insert adds a
    /// want. An insert that renews or adds a want is answered 100. An insert is answered 503 if it
    /// would have to add a want and the limits leave no room for the want. A want expires at the
    /// end of its lifetime, or at the time `u64::MAX` if that is earlier. A delete removes the
    /// matching objects and the equal want. The delete is answered 200 with the number of removed
    /// objects if it removed an object or a want, and 404 if it removed neither. A check is
    /// answered 200 with the number of matching objects if at least one object matches. If no
    /// object matches, the check is answered 100 if there is an equal want, and 404 if there is
    /// none. A name that is not the name of a command is answered 400.
    ///
    /// Only an insert can return `Memory`. An insert that returns `Memory` leaves the objects and
    /// wants unchanged. Every insert ends the preparation that `prepare_command` or `prepare_offer`
    /// made; other commands do not end the preparation.
    pub fn command(&mut self, name: Name<'_>, now: u64) -> Result<RepoReply, Memory>
        ensures reply { IfOk result (λ r.
            r ≡ reply_to self.old.held (repo_command_at self.old.start (components name.entry))) }
        ensures held { OnOk result (self.new.held
            ≡ after_command self.old.start (components name.entry) now self.old.held) }
        ensures err { OnErr result (self.new.held ≡ self.old.held) }
        ensures cause { OnErr result
            (MakesWant self.old.held (repo_command_at self.old.start (components name.entry))) }
        ensures start { self.new.start ≡ self.old.start }
        ensures ended { is_insert_at self.old.start (components name.entry) ≡ true
            → (self.new.prepared_want ≡ None) × (self.new.prepared_object ≡ None) }
        ensures kept { is_insert_at self.old.start (components name.entry) ≡ false
            → (self.new.prepared_want ≡ self.old.prepared_want)
            × (self.new.prepared_object ≡ self.old.prepared_object) }
        ensures promised { IsCommandPrepared self.old (components name.entry) → IsOk result }
        // The name of the Interest to send is not longer than the name of the command.
        ensures fetched { IfOk result (λ r. IfSome r.fetch (λ want.
            length (octets_of want.name) ≤ length (octets_of (components name.entry)))) }
    {
        let Some(asked) = command_in(self.start.view(), name) else {
            return Ok(RepoReply::plain(BAD_PARAMETERS, 0));
        };
        match asked.verb {
            Verb::Insert => {
                let spare = self.names.take();
                self.object = None;
                self.insert(asked, now, spare)
            }
            Verb::Delete => Ok(self.delete(asked)),
            Verb::Check => Ok(self.check(asked)),
        }
    }

    /// Offers a Data to the repository, and returns whether the Data was wanted. Wants that have
    /// expired count until `expire` removes them. A wanted Data is added, or replaces the object
    /// with the same full name. All wants that the Data answers are removed. An offer of a wanted
    /// Data ends the preparation that `prepare_command` or `prepare_offer` made, even if the offer
    /// returns `Memory`. Only the offer of a wanted Data can return `Memory`. An offer that returns
    /// `Memory` leaves the objects and wants unchanged. A Data that is not wanted changes nothing.
    pub fn offer(&mut self, packet: &Data<'_>) -> Result<bool, Memory>
        ensures filled { IfOk result (λ filled. filled ≡ is_wanted (components packet.now.name)
            (sha256 packet.now.whole.now) self.old.held.wants) }
        ensures held { OnOk result (self.new.held ≡ after_offer (components packet.now.name)
            (sha256 packet.now.whole.now) packet.now.whole.now self.old.held) }
        ensures err { OnErr result (self.new.held ≡ self.old.held) }
        ensures cause { OnErr result (is_wanted (components packet.now.name)
            (sha256 packet.now.whole.now) self.old.held.wants ≡ true) }
        ensures start { self.new.start ≡ self.old.start }
        ensures ended { is_wanted (components packet.now.name) (sha256 packet.now.whole.now)
            self.old.held.wants ≡ true
            → (self.new.prepared_want ≡ None) × (self.new.prepared_object ≡ None) }
        ensures kept { is_wanted (components packet.now.name) (sha256 packet.now.whole.now)
            self.old.held.wants ≡ false → self.new ≡ self.old }
        ensures promised { IsOfferPrepared self.old (components packet.now.name)
            (sha256 packet.now.whole.now) packet.now.whole.now → IsOk result }
    {
        if !self.wants.are_filled_by(packet) {
            return Ok(false);
        }
        let spare = self.object.take();
        self.names = None;
        self.objects.reserve()?;
        let object = object_for(self.alloc, spare, packet)?;
        self.wants.fill(packet);
        self.objects.put(object);
        Ok(true)
    }

    /// Returns the octets of the stored Data that answers the Interest, or `None` if no stored Data
    /// answers. If several stored Data answer, the Data with the least full name is chosen.
    /// MustBeFresh is ignored.
    pub fn serve(&self, interest: &Interest<'_>) -> Option<&[u8]>
        ensures { option_map (λ o. o.now) result ≡ served (components interest.now.name)
            interest.now.can_be_prefix self.now.held.objects }
    {
        self.objects.served(interest.name, interest.can_be_prefix)
    }

    /// Removes the wants whose deadline is at most `now`, in milliseconds since 1970. A preparation
    /// that `prepare_command` or `prepare_offer` made remains valid.
    pub fn expire(&mut self, now: u64)
        ensures { self.new ≡ record self.old {
          held = record self.old.held {
            wants = wants_after now self.old.held.wants;
          };
        } }
    {
        self.wants.expire(now);
    }

    /// Returns the number of objects plus the number of wants. The clauses `limits` and `objects`
    /// of the contract are true of every repository.
    pub fn held_len(&self) -> usize
        ensures exact { result ≡ map.len self.now.held.objects + map.len self.now.held.wants }
        ensures limits { IsWithinLimits self.now.held }
        ensures objects { AreObjects self.now.held.objects }
    {
        self.objects.len() + self.wants.len()
    }

    #[tactic(auto, using(crate::proofs::SameNames::same_name))]
    /// Returns whether both repositories have the same prefix. The contract covers only the result
    /// `true`.
    pub fn has_same_prefix(&self, other: &Repo) -> bool
        ensures { IsTrue result → self.now.start ≡ other.now.start }
    {
        self.start == other.start
    }

    /// Returns whether both repositories have the same objects and the same wants. The contract
    /// covers only the result `true`.
    pub fn holds_same(&self, other: &Repo) -> bool
        ensures { IsTrue result → self.now.held ≡ other.now.held }
    {
        self.objects.is_same(&other.objects) && self.wants.is_same(&other.wants)
    }

    /// Prepares the command with this name: allocates the memory that `command` needs for the
    /// command and for the returned `RepoReply`. The prepared command cannot run out of memory. The
    /// preparation ends with the next insert, the next offer of a wanted Data, or the next call
    /// that prepares a command or an offer, even if that call fails. Deletes and the expiry of
    /// wants do not end the preparation. Among commands, only an insert needs memory.
    pub fn prepare_command(&mut self, name: Name<'_>) -> Result<(), Memory>
        ensures held { self.new.held ≡ self.old.held }
        ensures start { self.new.start ≡ self.old.start }
        ensures ok { OnOk result (IsCommandPrepared self.new (components name.entry)) }
        ensures err { OnErr result (self.new.prepared_want ≡ None) }
        ensures other { is_insert_at self.old.start (components name.entry) ≡ false
            → self.new.prepared_want ≡ None }
        ensures alone { self.new.prepared_object ≡ None }
        ensures cause { OnErr result
            (is_insert_at self.old.start (components name.entry) ≡ true) }
    {
        self.names = None;
        self.object = None;
        if let Some(asked) = command_in(self.start.view(), name) {
            if asked.verb == Verb::Insert {
                let names = Names::new(self.alloc, asked.name)?;
                self.names = Some(names);
            }
        }
        Ok(())
    }

    /// Prepares the offer of this Data. The prepared offer cannot run out of memory. The
    /// preparation ends with the next insert, the next offer of a wanted Data, or the next call
    /// that prepares a command or an offer, even if that call fails.
    pub fn prepare_offer(&mut self, packet: &Data<'_>) -> Result<(), Memory>
        ensures held { self.new.held ≡ self.old.held }
        ensures start { self.new.start ≡ self.old.start }
        ensures ok { OnOk result (IsOfferPrepared self.new (components packet.now.name)
            (sha256 packet.now.whole.now) packet.now.whole.now) }
        ensures err { OnErr result (self.new.prepared_object ≡ None) }
        ensures other { is_wanted (components packet.now.name) (sha256 packet.now.whole.now)
            self.old.held.wants ≡ false → self.new.prepared_object ≡ None }
        ensures alone { self.new.prepared_want ≡ None }
        ensures cause { OnErr result (is_wanted (components packet.now.name)
            (sha256 packet.now.whole.now) self.old.held.wants ≡ true) }
    {
        self.names = None;
        self.object = None;
        if self.wants.are_filled_by(packet) {
            self.objects.reserve()?;
            let object = Object::new(self.alloc, packet)?;
            self.object = Some(object);
        }
        Ok(())
    }

    /// Applies an insert. Uses the prepared names `spare` if the prepared names are copies of
    /// `asked.name`.
    fn insert(
        &mut self,
        asked: Asked<'_>,
        now: u64,
        spare: Option<Names>,
    ) -> Result<RepoReply, Memory>
        requires verb { asked.verb ≡ Verb.Insert }
        requires alike { IfSome spare AreAlike }
        ensures reply { IfOk result (λ r. r ≡ reply_to self.old.held (Some (plain asked.entry))) }
        ensures held { OnOk result (self.new
            ≡ record self.old { held = after_insert (plain asked.entry) now self.old.held }) }
        ensures err { OnErr result (self.new ≡ self.old) }
        ensures cause { OnErr result (MakesWant self.old.held (Some (plain asked.entry))) }
        ensures spared { option_map (λ n. n.key) spare ≡ Some (components asked.entry.name)
            → IsOk result }
    {
        let count = self.objects.number(asked.name, asked.can_be_prefix);
        if count > 0 {
            return Ok(RepoReply::plain(OK, count as u64));
        }
        if !self.wants.contains(asked.name, asked.can_be_prefix) && self.is_full() {
            return Ok(RepoReply::plain(FULL, 0));
        }
        let names = names_for(self.alloc, spare, asked.name)?;
        let deadline = now.saturating_add(asked.lifetime);
        self.wants.put(names.key, asked.can_be_prefix, deadline);
        let fetch = Want {
            name: names.fetched,
            can_be_prefix: asked.can_be_prefix,
            lifetime: asked.lifetime,
        };
        Ok(RepoReply {
            status: PENDING,
            count: 0,
            fetch: Some(fetch),
        })
    }

    /// Returns whether one more want would exceed the limits.
    fn is_full(&self) -> bool
        ensures { result ≡ is_repo_full self.now.held }
    {
        self.wants.len() >= MAX_WANTS || self.objects.len() >= MAX_HELD - self.wants.len()
    }

    /// Applies a delete.
    fn delete(&mut self, asked: Asked<'_>) -> RepoReply
        requires verb { asked.verb ≡ Verb.Delete }
        ensures reply { result ≡ reply_to self.old.held (Some (plain asked.entry)) }
        ensures held { self.new
            ≡ record self.old { held = after_delete (plain asked.entry) self.old.held } }
    {
        let count = self.objects.number(asked.name, asked.can_be_prefix);
        if count == 0 && !self.wants.contains(asked.name, asked.can_be_prefix) {
            return RepoReply::plain(NOT_FOUND, 0);
        }
        self.objects.remove(asked.name, asked.can_be_prefix);
        self.wants.remove(asked.name, asked.can_be_prefix);
        RepoReply::plain(OK, count as u64)
    }

    /// Applies a check.
    fn check(&self, asked: Asked<'_>) -> RepoReply
        requires { asked.verb ≡ Verb.Check }
        ensures { result ≡ reply_to self.now.held (Some (plain asked.entry)) }
    {
        let count = self.objects.number(asked.name, asked.can_be_prefix);
        if count > 0 {
            return RepoReply::plain(OK, count as u64);
        }
        if self.wants.contains(asked.name, asked.can_be_prefix) {
            return RepoReply::plain(PENDING, 0);
        }
        RepoReply::plain(NOT_FOUND, 0)
    }
}

/// Returns the object for a Data: `spare` if `spare` is the object of this Data, otherwise a new
/// object.
fn object_for(alloc: Global, spare: Option<Object>, packet: &Data<'_>) -> Result<Object, Memory>
    ensures ok { IfOk result (λ o. o ≡ object_of packet.now) }
    ensures spared { spare ≡ Some (object_of packet.now) → IsOk result }
{
    match spare {
        Some(object) if object.is_of(packet) => Ok(object),
        _ => Object::new(alloc, packet),
    }
}
