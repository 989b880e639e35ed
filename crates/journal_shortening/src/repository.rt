use crate::subject::{Kind, full_name_in, key_of, object_key};
use crate::survey::{OK, Place, Survey, Want};
use crate::writer::Effect;
use ndn_names::{Name, NameBuf};
use ndn_packets::Data;
use ndn_tlv::Memory;
use repo_core::{Asked, Verb, command_in};

/// The status of an insert that waits for its Data.
const PENDING: u16 = 100;

/// The length of a digest component in octets.
const DIGEST_COMPONENT_LEN: usize = 34;

impl Survey {
    /// Forgets the wants (pending inserts) that have expired at the time `now`.
    pub fn forget_expired(&mut self, now: u64) {
        self.wants.retain(|want| now < want.deadline);
    }

    /// Notes a command to the repository.
    pub fn note_repository(
        &mut self,
        at: Place,
        status: u16,
        name: Name<'_>,
    ) -> Result<(), Memory> {
        let Some(asked) = asked_by(name) else {
            return Ok(());
        };
        self.forget_expired(at.now);
        match asked.verb {
            Verb::Insert if status == PENDING => self.note_want(at, &asked),
            Verb::Insert if status == OK => self.note_answered(at.line, &asked),
            Verb::Delete if status == OK => self.note_delete(at.line, &asked),
            _ => Ok(()),
        }
    }

    /// Notes that an insert is waiting for its Data. If there already is a want with the name and
    /// the CanBePrefix of `asked`, the insert replaces that want.
    fn note_want(&mut self, at: Place, asked: &Asked<'_>) -> Result<(), Memory> {
        self.end_want(at.line, asked)?;
        let name = NameBuf::from_name(self.alloc, asked.name)?;
        self.wants.push(Want {
            name,
            can_be_prefix: asked.can_be_prefix,
            deadline: at.now.saturating_add(asked.lifetime),
            line: at.line,
        })?;
        Ok(())
    }

    /// Notes that the line `line` ended the want with the name and the CanBePrefix of `asked`, if
    /// there is such a want. The line of the ended want needs the line `line`.
    fn end_want(&mut self, line: u32, asked: &Asked<'_>) -> Result<(), Memory> {
        for want in &self.wants {
            if is_equal(want, asked) {
                self.links.push((want.line, line))?;
            }
        }
        self.wants.retain(|want| !is_equal(want, asked));
        Ok(())
    }

    /// Notes that stored objects answered an insert. The line of the insert needs the line that
    /// stored one of these objects (the first in the order of their keys), because the insert would
    /// wait for a Data if no object answered. If the survey knows no object that answers the
    /// insert, the line of the insert needs all lines before it.
    fn note_answered(&mut self, line: u32, asked: &Asked<'_>) -> Result<(), Memory> {
        let start = key_of(self.alloc, Kind::Object, &[], asked.name.as_octets())?;
        match self.first_object(start, asked) {
            Some(object) => self.link(line, object),
            None => self.need_all_before(line),
        }
    }

    /// Looks only at the objects whose keys are `start` or greater, in the order of their keys.
    /// Returns the line that stored the first of these objects that answers the command, or `None`
    /// if none of these objects answers the command.
    fn first_object(&self, start: Vec<u8>, asked: &Asked<'_>) -> Option<u32> {
        for (key, writer) in self.writers.range(start..) {
            let name = full_name_in(key)?;
            if !name.starts_with(asked.name.as_octets()) {
                return None;
            }
            if writer.effect == Effect::Set && is_answer(name, asked) {
                return Some(writer.line);
            }
        }
        None
    }

    /// Notes that a delete removed the objects that answer the delete. If there was a want with the
    /// name and the CanBePrefix of `asked`, also notes that the delete ended this want.
    fn note_delete(&mut self, line: u32, asked: &Asked<'_>) -> Result<(), Memory> {
        self.end_want(line, asked)?;
        let start = key_of(self.alloc, Kind::Object, &[], asked.name.as_octets())?;
        self.end_objects(line, start, asked)
    }

    /// Notes that the line `line` removed the objects that answer the command of this line. Looks
    /// only at the objects whose keys are `start` or greater.
    fn end_objects(&mut self, line: u32, start: Vec<u8>, asked: &Asked<'_>) -> Result<(), Memory> {
        for (key, writer) in self.writers.range_mut(start..) {
            let Some(name) = full_name_in(key) else {
                return Ok(());
            };
            if !name.starts_with(asked.name.as_octets()) {
                return Ok(());
            }
            if writer.effect == Effect::Set && is_answer(name, asked) {
                self.links.push((writer.line, line))?;
                writer.effect = Effect::Removed;
                writer.line = line;
            }
        }
        Ok(())
    }

    /// Notes that a wanted Data was stored, and that this Data ended all wants that it answers. The
    /// line of the Data needs the line of each of these wants, and the line of each of these wants
    /// needs the line of the Data.
    pub fn note_object(&mut self, line: u32, data: &Data<'_>) -> Result<(), Memory> {
        for want in &self.wants {
            if data.answers(want.name.view(), want.can_be_prefix) {
                self.links.push((want.line, line))?;
                self.links.push((line, want.line))?;
            }
        }
        self.wants
            .retain(|want| !data.answers(want.name.view(), want.can_be_prefix));
        let key = object_key(self.alloc, data)?;
        self.write(key, line, Effect::Set)
    }
}

/// Reads a name as the name of a command to a repository with any prefix. Returns `None` if the
/// name is not the name of such a command. The name of a command consists of the prefix, the verb,
/// the parameters and the digest of the Interest's parameters.
fn asked_by(name: Name<'_>) -> Option<Asked<'_>> {
    let start = name.len().checked_sub(3)?;
    command_in(name.prefix(start), name)
}

/// Returns whether a want has the name and the CanBePrefix in the parameters of a command.
fn is_equal(want: &Want, asked: &Asked<'_>) -> bool {
    want.can_be_prefix == asked.can_be_prefix
        && want.name.view().as_octets() == asked.name.as_octets()
}

/// Returns whether the object with this full name answers the command. The full name must begin
/// with the name in the command's parameters.
fn is_answer(full_name: &[u8], asked: &Asked<'_>) -> bool {
    let len = asked.name.as_octets().len();
    asked.can_be_prefix
        || full_name.len() == len
        || full_name.len() == len.saturating_add(DIGEST_COMPONENT_LEN)
}
