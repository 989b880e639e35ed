use crate::subject::{Kind, key_of, route_key};
use crate::survey::{Place, Survey};
use crate::writer::Effect;
use mgmt_core::{Action, Command};
use ndn_tlv::Memory;

impl Survey {
    /// Notes what a command with the status 200 did to the tables.
    pub fn note_tables(&mut self, at: Place, command: &Command<'_>) -> Result<(), Memory> {
        match command.action {
            Action::AddNexthop | Action::RemoveNexthop | Action::Register | Action::Unregister =>
                self.note_route(at, command),
            Action::SetStrategy => self.note_strategy(at.line, command, Effect::Set),
            Action::UnsetStrategy => self.note_strategy(at.line, command, Effect::Removed),
            Action::EraseCache => Ok(()),
        }
    }

    /// Notes that a command set or removed the strategy of the name in the command's parameters.
    fn note_strategy(
        &mut self,
        line: u32,
        command: &Command<'_>,
        effect: Effect,
    ) -> Result<(), Memory> {
        let key = key_of(self.alloc, Kind::Strategy, &[], command.name.as_octets())?;
        self.write(key, line, effect)
    }

    /// Notes that a command set or removed a next hop or a route. If the face of the next hop or
    /// route is open, the line of the command needs the line that opened this face.
    fn note_route(&mut self, at: Place, command: &Command<'_>) -> Result<(), Memory> {
        let face = if command.face == 0 {
            at.face
        } else {
            command.face
        };
        self.link_face(at.line, face)?;
        let effect = self.route_effect(at.now, command, face);
        let key = route_key(self.alloc, command, face)?;
        self.write(key, at.line, effect)
    }

    /// Returns what a command at the time `now` did to the next hop or the route with the face
    /// `face`.
    fn route_effect(&self, now: u64, command: &Command<'_>, face: u64) -> Effect {
        let Some(up) = self.up_of(face) else {
            return Effect::Removed;
        };
        let deadline = command.expires.map(|period| now.saturating_add(period));
        match command.action {
            Action::AddNexthop => Effect::Routed {
                face,
                up,
                deadline: None,
            },
            Action::Register => Effect::Routed { face, up, deadline },
            _ => Effect::Removed,
        }
    }
}
