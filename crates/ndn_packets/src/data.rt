ghost use Rattle.std.specs.Prelude.{◌≡◌, Ok, Err, Some, IfOk, OnSome, option_map};
ghost use Rattle.ndn_tlv.specs.Reading.{elements_of, on_result};
ghost use Rattle.ndn_packets.specs.Fields.{data_schema, is_even_high};
ghost use Rattle.ndn_packets.specs.Reading.{read_fields, take_data_field, nothing_yet, fields_from};
ghost use Rattle.ndn_packets.specs.SoFar.{so_far};
ghost use Rattle.ndn_names.specs.View.{components};
ghost use Rattle.ndn_packets.specs.Packet.{plain_signature};
ghost use Rattle.ndn_packets.specs.Grammar.{IsData};
ghost use Rattle.ndn_packets.specs.Covered.{from_first, CoversData};

use crate::covered::octets_before;
use crate::fault::PacketFault;
use crate::field_reader::{FieldReader, leading_name};
use crate::frame::is_too_long;
use crate::meta_info::freshness_of;
use crate::schema::Rules;
use crate::signature::{Signature, SignatureInfo, signature_info};
use crate::types::{CONTENT, META_INFO, SIGNATURE_INFO, SIGNATURE_VALUE};
use ndn_names::Name;
use ndn_tlv::Element;

/// A Data, which borrows the octets that it was read from (NDN Packet Format 0.3, "Data Packet").
#[derive(Clone, Copy, Debug, PartialEq, Eq)]
pub struct Data<'a> {
    /// The name, which may be empty.
    pub name: Name<'a>,
    /// The FreshnessPeriod in milliseconds, 0 if absent.
    pub freshness: u64,
    /// The value of the Content, `None` if absent. An empty Content is not `None`.
    pub content: Option<&'a [u8]>,
    /// The signature, which is not verified.
    pub signature: Signature<'a>,
    /// The received octets of the whole packet, including the type and length of the packet. There
    /// are at most 8,800 of these octets.
    pub whole: &'a [u8],
    /// The octets that the signature covers: the octets from the Name up to, but not including, the
    /// SignatureValue.
    pub(crate) covered: &'a [u8],
    ghost covers: { ∥ CoversData whole.now covered.now ∥₁ },
    ghost spelled: { ∥ IsData whole.now (record {
      name = components name;
      freshness = freshness;
      content = option_map (λ c. c.now) content;
      signature = plain_signature signature;
    }) ∥₁ },
}

const FIELDS: [u32; 4] = [META_INFO, CONTENT, SIGNATURE_INFO, SIGNATURE_VALUE];

/// The fields of a Data that have been read so far.
#[derive(Clone, Copy)]
struct DataFields<'a> {
    freshness: u64,
    content: Option<&'a [u8]>,
    info: Option<SignatureInfo<'a>>,
    value: Option<&'a [u8]>,
    /// The octets from the SignatureValue on, once the SignatureValue has been read.
    from_value: &'a [u8],
}

impl<'a> Data<'a> {
    ghost use Rattle.std.specs.Prelude.{◌≡◌, IfOk, Ok, Err};
    ghost use Rattle.ndn_tlv.specs.Reading.{on_result};
    ghost use Rattle.ndn_packets.specs.View.{plain_data};
    ghost use Rattle.ndn_packets.specs.FrameReading.{data_of};
    ghost use Rattle.ndn_packets.specs.declared.types.TheConstants.{DATA};

    #[tactic(auto, unfolding(crate::specs::Reading::data_at))]
    /// Reads the Data in the element `outer`.
    #[inline(always)]
    pub(crate) fn read(outer: Element<'a>) -> Result<Data<'a>, PacketFault>
        requires { outer.kind ≡ DATA }
        ensures exact { on_result (λ d. Ok (plain_data d)) Err result
            ≡ data_of outer.entry.whole.now outer.entry.value.now }
        ensures whole { IfOk result (λ d. d.whole.now ≡ outer.entry.whole.now) }
    {
        if is_too_long(outer.whole) {
            return Err(PacketFault::TooLong);
        }
        let (name, rest) = leading_name(outer.value)?;
        let found = fields_of(rest)?;
        let (Some(info), Some(value)) = (found.info, found.value) else {
            return Err(PacketFault::BadField);
        };
        Ok(Data {
            name,
            freshness: found.freshness,
            content: found.content,
            signature: info.with_value(value),
            whole: outer.whole,
            covered: octets_before(outer.value, found.from_value),
        })
    }
}

#[tactic(auto, using(crate::proofs::Marks::data_first, crate::proofs::Marks::data_still, crate::proofs::Marks::data_value))]
/// Reads the fields of a Data from `rest`, the octets after the Name.
#[inline(always)]
fn fields_of(rest: &[u8]) -> Result<DataFields<'_>, PacketFault>
    ensures walk { on_result (λ f. Ok (so_far f)) Err result
        ≡ read_fields take_data_field nothing_yet
        (fields_from is_even_high data_schema (elements_of rest.now)) }
    ensures value { IfOk result
        (λ f. OnSome f.value (from_first SIGNATURE_VALUE rest.now ≡ Some f.from_value.now)) }
{
    let mut fields = FieldReader::new(Rules::Packet, rest, &FIELDS);
    let mut found = DataFields {
        freshness: 0,
        content: None,
        info: None,
        value: None,
        from_value: rest,
    };
    while let Some(field) = fields.next()? {
        match field.kind {
            META_INFO => found.freshness = freshness_of(field.value)?,
            CONTENT => found.content = Some(field.value),
            SIGNATURE_INFO => found.info = Some(signature_info(field.value)?),
            _ => {
                found.value = Some(field.value);
                found.from_value = fields.here;
            }
        }
    }
    Ok(found)
}
