ghost use Rattle.std.specs.Vec.{vec_capacity};
ghost use Rattle.std.specs.Prelude.{◌≡◌, ◌+◌, ◌≤◌, ◌++◌, IsOk, length, vec_len, OnOk, OnErr};
ghost use Rattle.ndn_names.specs.View.{components};
ghost use Rattle.ndn_packets.specs.Grammar.{IsData};
ghost use Rattle.ndn_tlv.specs.Writing.{octets, Puts, optional};
ghost use Rattle.ndn_packets.specs.Writing.{last_fields, reply_text, reply_asked, reply_of, SignsReply, IsU64};

use crate::fault::WriteFault;
use crate::field_writer::{
    DIGEST_LEN, element_len, info_len, name_element_len, number_field_len, optional_len, put_info,
    put_optional,
};
use crate::frame::MAX_PACKET;
use crate::signature::Sign;
use crate::types::{
    CONTENT, DATA, FINAL_BLOCK_ID, FRESHNESS_PERIOD, META_INFO, NAME, SIGNATURE_INFO,
    SIGNATURE_VALUE,
};
use ndn_names::Name;
use ndn_names::component_type::SEGMENT;
use ndn_tlv::{
    Memory, nni_element_len, put_element, put_header, put_nni_element, put_number_field,
};

/// A Data that is to be written (NDN Packet Format 0.3, "Data Packet").
#[derive(Clone, Copy, Debug)]
pub struct DataWriter<'a> {
    /// The name, which may be empty.
    pub name: Name<'a>,
    /// The FreshnessPeriod in milliseconds.
    pub freshness: Option<u64>,
    /// The segment number of the last segment. This number is written as the one component in the
    /// FinalBlockId.
    pub last: Option<u64>,
    /// The value of the Content.
    pub content: Option<&'a [u8]>,
    /// How the Data is signed.
    pub sign: Sign<'a>,
}

impl DataWriter<'_> {
    ghost use Rattle.std.specs.Vec.{vec_capacity};
    ghost use Rattle.std.specs.Prelude.{◌≡◌, ◌+◌, ◌≤◌, ◌++◌, IsOk, [], length, vec_len, None, OnOk, OnErr, Err, MatchOption, IfErr};
    ghost use Rattle.ndn_names.specs.View.{components};
    ghost use Rattle.ndn_packets.specs.Grammar.{IsData};
    ghost use Rattle.ndn_packets.specs.Packet.{AData};
    ghost use Rattle.ndn_packets.specs.Covered.{Covered};
    ghost use Rattle.ndn_tlv.specs.Writing.{octets, Puts, optional};
    ghost use Rattle.ndn_packets.specs.Writing.{fields_covered, fields_asked, meta_fields, meta_asked, data_text, data_asked, data_refusal, IsLength, IsU64, SoundData};

    /// Appends the Data with only the requested fields and the fields of the signature, in the
    /// standard's order and in their shortest forms. If neither a FreshnessPeriod nor a last
    /// segment is requested, no MetaInfo is written.
    ///
    /// If the Data cannot be written, returns the first fault in the order of `WriteFault` and
    /// appends nothing. `BadName` is never returned.
    pub fn write(&self, out: &mut Vec<u8>) -> Result<(), WriteFault>
        ensures ok { OnOk result (out.new.items ≡ out.old.items ++ data_text self.now) }
        ensures err { OnErr result (out.new.items ≡ out.old.items) }
        // If `data_refusal` is a fault, this fault is returned. If `data_refusal` is `None`, the
        // only possible fault is `Memory`.
        ensures fault { MatchOption (data_refusal self.now)
            (IfErr result (λ fault. fault ≡ WriteFault.Memory))
            (λ fault. result ≡ Err fault) }
        // If the capacity of `out` suffices, memory does not run out.
        ensures room { data_refusal self.now ≡ None
            → vec_len out.old + length (data_text self.now) ≤ vec_capacity out.old → IsOk result }
        ensures capacity { vec_capacity out.old ≤ vec_capacity out.new }
        // The written octets are in the grammar, and are the requested Data.
        ensures reads_back { data_refusal self.now ≡ None
            → IsData (data_text self.now) (data_asked self.now) }
        // The signature was computed over exactly the octets that `Covered` defines.
        ensures signed { data_refusal self.now ≡ None
            → Covered (AData (data_text self.now) (data_asked self.now))
            (octets (fields_covered self.now)) [] }
    {
        let value_len = self.value_len();
        if element_len(DATA, value_len) > MAX_PACKET {
            return Err(WriteFault::TooLong);
        }
        self.put(out, value_len)?;
        Ok(())
    }

    #[tactic(auto, using(crate::proofs::Lengths::fields_are_long))]
    /// Returns the length of the value of the MetaInfo in octets, or 0 if no MetaInfo is written.
    fn meta_len(&self) -> usize
        ensures exact { result ≡ length (octets (meta_fields self.now.freshness self.now.last)) }
        ensures small { result ≤ 70 }
        ensures freshness { IsU64 self.now.freshness }
        ensures last { IsU64 self.now.last }
    {
        number_field_len(FRESHNESS_PERIOD, self.freshness) + last_len(self.last)
    }

    #[tactic(auto, using(crate::proofs::DataWriting::meta_absent, crate::proofs::DataWriting::meta_present))]
    /// Returns the length of the MetaInfo in octets, or 0 if no MetaInfo is written.
    fn meta_field_len(&self) -> usize
        ensures len { IsLength result (octets (optional META_INFO (meta_asked self.now))) }
        ensures freshness { IsU64 self.now.freshness }
        ensures last { IsU64 self.now.last }
    {
        match self.meta_len() {
            0 => 0,
            len => element_len(META_INFO, len),
        }
    }

    /// Returns the length in octets of the fields that the signature covers, or `usize::MAX` if the
    /// length is greater.
    fn covered_len(&self) -> usize
        ensures len { IsLength result (octets (fields_covered self.now)) }
        // Proofs about the written Data use the fact that the octets and numbers of the writer are
        // within the ranges of their types.
        ensures sound { SoundData self.now }
    {
        name_element_len(self.name)
            .saturating_add(self.meta_field_len())
            .saturating_add(optional_len(CONTENT, self.content))
            .saturating_add(element_len(SIGNATURE_INFO, info_len(self.sign, None, None)))
    }

    /// Returns the length of the packet's value in octets, or `usize::MAX` if the length is
    /// greater.
    fn value_len(&self) -> usize
        ensures len { IsLength result (octets (fields_asked self.now)) }
        // Proofs about the written Data use the fact that the octets and numbers of the writer are
        // within the ranges of their types.
        ensures sound { SoundData self.now }
    {
        self.covered_len()
            .saturating_add(element_len(SIGNATURE_VALUE, DIGEST_LEN))
    }

    #[tactic(auto, using(crate::proofs::DataWriting::meta_absent, crate::proofs::DataWriting::meta_put))]
    /// Appends the MetaInfo, if there is one. If memory runs out, some octets may have been
    /// appended.
    fn put_meta(&self, out: &mut Vec<u8>) -> Result<(), Memory>
        ensures { Puts out.old out.new result (octets (optional META_INFO (meta_asked self.now))) }
    {
        let len = self.meta_len();
        if len == 0 {
            return Ok(());
        }
        put_header(out, META_INFO, len)?;
        put_number_field(out, FRESHNESS_PERIOD, self.freshness)?;
        put_last(out, self.last)?;
        Ok(())
    }

    #[tactic(auto, using(crate::proofs::DataWriting::covered_put))]
    /// Appends the fields that the signature covers. If memory runs out, some octets may have been
    /// appended.
    fn put_covered(&self, out: &mut Vec<u8>) -> Result<(), Memory>
        ensures { Puts out.old out.new result (octets (fields_covered self.now)) }
    {
        put_element(out, NAME, self.name.as_octets())?;
        self.put_meta(out)?;
        put_optional(out, CONTENT, self.content)?;
        put_info(out, SIGNATURE_INFO, self.sign, None, None)?;
        Ok(())
    }

    /// Appends the Data. If memory runs out, some octets may have been appended. Capacity for the
    /// whole Data is reserved first, so a Data that is longer than any memory gets the fault
    /// `Memory` at once.
    fn put_parts(&self, out: &mut Vec<u8>, value_len: usize) -> Result<(), Memory>
        requires { IsLength value_len (octets (fields_asked self.now)) }
        ensures { Puts out.old out.new result (data_text self.now) }
    {
        out.reserve(element_len(DATA, value_len))?;
        put_header(out, DATA, value_len)?;
        let start = out.len();
        self.put_covered(out)?;
        let value = self.sign.value(&out[start..], &[]);
        put_element(out, SIGNATURE_VALUE, &value)?;
        Ok(())
    }

    /// Appends the Data, even if it is longer than a packet may be. If memory runs out, nothing is
    /// appended.
    fn put(&self, out: &mut Vec<u8>, value_len: usize) -> Result<(), Memory>
        requires { IsLength value_len (octets (fields_asked self.now)) }
        ensures ok { OnOk result (out.new.items ≡ out.old.items ++ data_text self.now) }
        ensures err { OnErr result (out.new.items ≡ out.old.items) }
        ensures room { vec_len out.old + length (data_text self.now) ≤ vec_capacity out.old
            → IsOk result }
        ensures capacity { vec_capacity out.old ≤ vec_capacity out.new }
    {
        let len = out.len();
        let done = self.put_parts(out, value_len);
        if done.is_err() {
            out.truncate(len);
        }
        done
    }
}

#[tactic(auto, using(crate::proofs::DataWriting::last_is_short, crate::proofs::DataWriting::last_is_long))]
/// Returns the length of the FinalBlockId in octets, or 0 if `last` is `None`.
fn last_len(last: Option<u64>) -> usize
    ensures exact { result ≡ length (octets (last_fields last)) }
    ensures small { result ≤ 44 }
    ensures sound { IsU64 last }
{
    match last {
        None => 0,
        Some(last) => element_len(FINAL_BLOCK_ID, nni_element_len(u32::from(SEGMENT), last)),
    }
}

/// Appends a FinalBlockId with the segment number `last`, or nothing if `last` is `None`. If memory
/// runs out, some octets may have been appended.
fn put_last(out: &mut Vec<u8>, last: Option<u64>) -> Result<(), Memory>
    ensures { Puts out.old out.new result (octets (last_fields last)) }
{
    if let Some(last) = last {
        let kind = u32::from(SEGMENT);
        put_header(out, FINAL_BLOCK_ID, nni_element_len(kind, last))?;
        put_nni_element(out, kind, last)?;
    }
    Ok(())
}

/// Appends a Data with this name and Content. The Data has no MetaInfo, is signed with
/// DigestSha256, and may have any length. If memory runs out, nothing is appended.
pub fn put_reply(out: &mut Vec<u8>, name: Name<'_>, content: &[u8]) -> Result<(), Memory>
    ensures ok { OnOk result
        (out.new.items ≡ out.old.items ++ reply_text (components name.entry) content.now) }
    ensures err { OnErr result (out.new.items ≡ out.old.items) }
    // If the capacity of `out` suffices, memory does not run out.
    ensures room { vec_len out.old + length (reply_text (components name.entry) content.now)
        ≤ vec_capacity out.old → IsOk result }
    ensures capacity { vec_capacity out.old ≤ vec_capacity out.new }
    // If the written Data has at most 8,800 octets, it is in the grammar.
    ensures reads_back { length (reply_text (components name.entry) content.now) ≤ 8800
        → IsData (reply_text (components name.entry) content.now)
        (reply_asked (components name.entry) content.now) }
    // The signature was computed over exactly the octets that `Covered` defines.
    ensures signed { length (reply_text (components name.entry) content.now) ≤ 8800
        → SignsReply (components name.entry) content.now }
{
    let reply = reply(name, content);
    reply.put(out, reply.value_len())
}

/// Returns the writer of a Data with this name and Content. The Data has no MetaInfo and is signed
/// with DigestSha256.
fn reply<'a>(name: Name<'a>, content: &'a [u8]) -> DataWriter<'a>
    ensures { result ≡ reply_of name.entry content.entry }
{
    DataWriter {
        name,
        freshness: None,
        last: None,
        content: Some(content),
        sign: Sign::Digest,
    }
}
