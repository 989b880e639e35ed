ghost use Rattle.std.specs.Prelude.{◌≡◌, true, false, ◌++◌, ◌⊎◌, List, IfOk, IsOk, OnErr};
ghost use Rattle.ndn_packets.specs.FrameReading.{frame_at};
ghost use Rattle.ndn_packets.specs.Writing.{AreOctets};
ghost use Rattle.repo_core.specs.Objects.{AreObjects};
ghost use Rattle.forwarder.specs.Event.{Packet, Send};
ghost use Rattle.forwarder.specs.OpenFaces.{is_open};
ghost use Rattle.forwarder.specs.Node.{NeedsNoMemory, IsStep};
ghost use Rattle.forwarder.specs.State.{IsLater, IsSound, policy_of, state_of};
ghost use Rattle.forwarder.specs.Verdict.{verdict_of};
ghost use Rattle.forwarder.specs.declared.verdict.Verdict.TheVariants as said;

use crate::arrived::Arrived;
use crate::sends::Sends;
use crate::state::State;
use crate::verdict::{DropReason, Verdict};
use ndn_packets::{Frame, Framed, read_lp};
use ndn_tlv::Memory;

impl State {
    /// Handles octets that arrived on a face (NFD Developer's Guide, "Forwarding Pipelines").
    pub fn receive(
        &mut self,
        face: u64,
        now: u64,
        octets: &[u8],
        out: &mut Sends,
    ) -> Result<Verdict, Memory>
        requires sound { IsSound (state_of self.old) }
        requires objects { AreObjects self.old.repo.held.objects }
        ensures handled { IfOk result (λ verdict. (sends : List Send)
            × (out.new.sends ≡ out.old.sends ++ sends)
            × IsStep (state_of self.old) (Packet face now octets.now)
            (record { verdict = verdict_of verdict; sends = sends }) (state_of self.new)) }
        ensures memory { OnErr result ((state_of self.new ≡ state_of self.old)
            × (out.new.sends ≡ out.old.sends)) }
        ensures objects { AreObjects self.new.repo.held.objects }
        ensures without_memory { (is_open face self.old.faces ≡ false)
            ⊎ NeedsNoMemory (policy_of self.old) face (frame_at octets.now) → IsOk result }
        ensures octets { AreOctets octets.now }
    {
        if !self.faces.contains(face) {
            return Ok(self.drop_packet(now, DropReason::NoFace));
        }
        let Framed { token, frame } = match read_lp(octets) {
            Ok(framed) => framed,
            Err(fault) => return Ok(self.drop_packet(now, DropReason::Malformed(fault))),
        };
        match frame {
            Frame::Idle => Ok(self.drop_packet(now, DropReason::Idle)),
            Frame::Interest(interest) => self.receive_interest(
                &Arrived {
                    face,
                    moment: now,
                    token,
                    packet: &interest,
                },
                out,
            ),
            Frame::Data(data) => self.receive_data(
                &Arrived {
                    face,
                    moment: now,
                    token,
                    packet: &data,
                },
                out,
            ),
            Frame::Nack { reason, interest } => self.receive_nack(
                reason,
                &Arrived {
                    face,
                    moment: now,
                    token,
                    packet: &interest,
                },
                out,
            ),
        }
    }

    /// Drops a packet: advances time, and does nothing else.
    pub fn drop_packet(&mut self, now: u64, reason: DropReason) -> Verdict
        ensures verdict { result ≡ said.Dropped reason }
        ensures later { IsLater (state_of self.old) now (state_of self.new) }
    {
        self.pass_time(now);
        Verdict::Dropped(reason)
    }
}
