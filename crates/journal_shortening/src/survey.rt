use crate::fault::ShortenFault;
use crate::playing::{Change, Seen};
use crate::reach::Reach;
use crate::subject::{Kind, signer_key};
use crate::writer::{Effect, Writer};
use mgmt_core::Command;
use ndn_names::{Name, NameBuf};
use ndn_packets::{Data, Frame, Interest, Signature, read_frame};
use ndn_tlv::Memory;
use std::alloc::Global;
use std::collections::BTreeMap;

/// The face and the line of a packet, and the node's time after the packet was handled.
#[derive(Clone, Copy, Debug)]
pub struct Place {
    pub face: u64,
    pub line: u32,
    pub now: u64,
}

/// A want (a pending insert) of the repository, and the line of this insert.
#[derive(Drop)]
pub struct Want {
    pub name: NameBuf,
    pub can_be_prefix: bool,
    pub deadline: u64,
    pub line: u32,
}

/// What is known of the lines that were replayed. Lines are counted from 0.
///
/// Line `a` needs line `b` if the effect of `a` on the restored tables may change when `b` is left
/// out.
#[derive(Drop)]
pub struct Survey {
    pub alloc: Global,
    /// The number of lines.
    pub count: u32,
    /// The line of the rules and keys in force, or `None` if no line has new rules.
    pub rules: Option<u32>,
    /// For each open face, the line that opened the face.
    pub ups: BTreeMap<u64, u32>,
    /// For the key of each subject, the last line that set or removed the subject, and what this
    /// line did.
    pub writers: BTreeMap<Vec<u8>, Writer>,
    /// The wants (pending inserts) that no line has ended. Some of these wants may have expired.
    pub wants: Vec<Want>,
    /// Pairs of lines. The first line of each pair needs the second.
    pub links: Vec<(u32, u32)>,
    /// The lines that need all lines before them, in ascending order.
    pub floors: Vec<u32>,
}

impl Survey {
    pub fn new(alloc: Global) -> Survey {
        Survey {
            alloc,
            count: 0,
            rules: None,
            ups: BTreeMap::new(alloc),
            writers: BTreeMap::new(alloc),
            wants: Vec::new(alloc),
            links: Vec::new(alloc),
            floors: Vec::new(alloc),
        }
    }

    /// Notes that a line needs another line.
    pub fn link(&mut self, line: u32, needed: u32) -> Result<(), Memory> {
        self.links.push((line, needed))?;
        Ok(())
    }

    /// Notes that a line needs all lines before it.
    pub fn need_all_before(&mut self, line: u32) -> Result<(), Memory> {
        self.floors.push(line)?;
        Ok(())
    }

    /// Notes what a line did to a subject. The previous line on the subject needs this line if
    /// `needs_next` is true for the previous line.
    pub fn write(&mut self, key: Vec<u8>, line: u32, effect: Effect) -> Result<(), Memory> {
        let before = self.writers.insert(key, Writer { line, effect })?;
        match before {
            Some(before) if before.needs_next() => self.link(before.line, line),
            _ => Ok(()),
        }
    }

    /// Notes what the event of a line did. `octets` are the octets of the event's packet, if the
    /// event has one. The fault is `NotJournalled` if the event is a packet that a node does not
    /// journal, and `Memory` if memory runs out.
    pub fn note(&mut self, seen: Seen, octets: &[u8], line: u32) -> Result<(), ShortenFault> {
        match seen.change {
            Change::Nothing => {}
            Change::Up(face) => self.note_up(face, line)?,
            Change::Down(face) => self.note_down(face, line)?,
            Change::Rules => self.rules = Some(line),
            Change::Command(face, status) => {
                let now = seen.now;
                self.note_command(Place { face, line, now }, status, octets)?;
            }
            Change::Stored(face) => {
                let now = seen.now;
                self.note_stored(Place { face, line, now }, octets)?;
            }
            Change::NotJournalled => {
                return Err(ShortenFault::NotJournalled(u64::from(line) + 1));
            }
        }
        Ok(())
    }

    /// Notes that a line opened a face.
    fn note_up(&mut self, face: u64, line: u32) -> Result<(), Memory> {
        self.ups.insert(face, line)?;
        Ok(())
    }

    /// Notes that a line closed a face. The line that opened the face needs this line.
    fn note_down(&mut self, face: u64, line: u32) -> Result<(), Memory> {
        match self.ups.remove(&face) {
            Some(up) => self.link(up, line),
            None => Ok(()),
        }
    }

    /// Notes that a line needs the line that opened the face, if the face is open.
    pub fn link_face(&mut self, line: u32, face: u64) -> Result<(), Memory> {
        match self.up_of(face) {
            Some(up) => self.link(line, up),
            None => Ok(()),
        }
    }

    /// Returns the line that opened a face, if the face is open.
    pub fn up_of(&self, face: u64) -> Option<u32> {
        self.ups.get(&face).copied()
    }

    /// Notes that the line of a packet needs the line of the rules in force, if there is such a
    /// line, and the line that opened the packet's face, if this face is open.
    fn link_packet(&mut self, at: Place) -> Result<(), Memory> {
        if let Some(rules) = self.rules {
            self.link(at.line, rules)?;
        }
        self.link_face(at.line, at.face)
    }

    /// Notes an allowed command that was answered with this status.
    fn note_command(&mut self, at: Place, status: u16, octets: &[u8]) -> Result<(), Memory> {
        self.link_packet(at)?;
        if status == TABLE_FULL {
            self.need_all_before(at.line)?;
        }
        match read_frame(octets) {
            Ok(Frame::Interest(interest)) => self.note_interest(at, status, &interest),
            _ => Ok(()),
        }
    }

    /// Notes the signer of a command, if the command is signed, and what the command did.
    fn note_interest(
        &mut self,
        at: Place,
        status: u16,
        interest: &Interest<'_>,
    ) -> Result<(), Memory> {
        if let Some(signature) = interest.signature {
            self.note_signer(at.line, &signature)?;
        }
        if is_management(interest.name) {
            self.note_management(at, status, interest.name)
        } else {
            self.note_repository(at, status, interest.name)
        }
    }

    /// Notes that this line has the last command of its signer among the lines that were replayed
    /// so far. The node allows a command with a SignatureTime only if this time is greater than the
    /// SignatureTimes of all earlier allowed commands of the signer. The same holds for the
    /// SignatureSeqNum, if the command has one. Notes nothing if the command has no SignatureTime.
    fn note_signer(&mut self, line: u32, signature: &Signature<'_>) -> Result<(), Memory> {
        if signature.time.is_none() {
            return Ok(());
        }
        let key = signer_key(self.alloc, Kind::Signer, signature)?;
        self.write(key, line, Effect::Renewed)?;
        if signature.seq.is_none() {
            return Ok(());
        }
        let key = signer_key(self.alloc, Kind::Numbered, signature)?;
        self.write(key, line, Effect::Renewed)
    }

    /// Notes a command on routes, strategies or the cache. Notes nothing if the status of the
    /// command is not 200.
    fn note_management(&mut self, at: Place, status: u16, name: Name<'_>) -> Result<(), Memory> {
        match Command::read(name) {
            Ok(command) if status == OK => self.note_tables(at, &command),
            _ => Ok(()),
        }
    }

    /// Notes a Data that the repository stored.
    fn note_stored(&mut self, at: Place, octets: &[u8]) -> Result<(), Memory> {
        self.link_packet(at)?;
        self.forget_expired(at.now);
        match read_frame(octets) {
            Ok(Frame::Data(data)) => self.note_object(at.line, &data),
            _ => Ok(()),
        }
    }

    /// Marks the lines that are needed even if no other line needs them: the line of the last
    /// rules, the lines that opened the open faces, the lines of wants that have not expired at the
    /// time `now`, and, for each subject that exists at the time `now`, the last line that set the
    /// subject.
    pub fn mark_roots(&self, now: u64, reach: &mut Reach) -> Result<(), Memory> {
        if let Some(rules) = self.rules {
            reach.mark(rules)?;
        }
        for (_, up) in &self.ups {
            reach.mark(*up)?;
        }
        self.mark_writers(now, reach)?;
        for want in &self.wants {
            if now < want.deadline {
                reach.mark(want.line)?;
            }
        }
        Ok(())
    }

    /// For each subject that exists at the time `now`, marks the last line that set the subject.
    fn mark_writers(&self, now: u64, reach: &mut Reach) -> Result<(), Memory> {
        for (_, writer) in &self.writers {
            if self.has_effect(now, writer.effect) {
                reach.mark(writer.line)?;
            }
        }
        Ok(())
    }

    /// Returns whether a subject exists at the time `now`. `effect` is what the last line on the
    /// subject did to the subject.
    fn has_effect(&self, now: u64, effect: Effect) -> bool {
        match effect {
            Effect::Removed => false,
            Effect::Renewed | Effect::Set => true,
            Effect::Routed { face, up, deadline } => {
                self.up_of(face) == Some(up) && deadline.is_none_or(|deadline| now < deadline)
            }
        }
    }
}

/// The status of a successful command.
pub const OK: u16 = 200;

/// The status of a command for which a table or the repository had no room.
const TABLE_FULL: u16 = 503;

/// Returns whether the name begins with `/localhost/nfd`, as the names of commands on routes,
/// strategies and the cache do.
fn is_management(name: Name<'_>) -> bool {
    name.as_octets()
        .starts_with(b"\x08\x09localhost\x08\x03nfd".as_slice())
}
