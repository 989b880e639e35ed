ghost use Rattle.std.specs.Prelude.{◌≡◌};
ghost use Rattle.ndn_packets.specs.Reading.{meta_at};

use crate::fault::PacketFault;
use crate::field_reader::{FieldReader, number};
use crate::schema::Rules;
use crate::types::{CONTENT_TYPE, FINAL_BLOCK_ID, FRESHNESS_PERIOD};

/// The fields of a MetaInfo (NDN Packet Format 0.3, "MetaInfo").
const FIELDS: [u32; 3] = [CONTENT_TYPE, FRESHNESS_PERIOD, FINAL_BLOCK_ID];

#[tactic(auto, unfolding(crate::specs::Reading::meta_at))]
/// Returns the FreshnessPeriod of a MetaInfo in milliseconds, or 0 if the MetaInfo has no
/// FreshnessPeriod.
pub fn freshness_of(meta: &[u8]) -> Result<u64, PacketFault>
    ensures { result ≡ meta_at meta.now }
{
    let mut fields = FieldReader::new(Rules::MetaInfo, meta, &FIELDS);
    let mut freshness = 0;
    while let Some(field) = fields.next()? {
        match field.kind {
            CONTENT_TYPE => {
                number(field.value)?;
            }
            FRESHNESS_PERIOD => freshness = number(field.value)?,
            _ => {}
        }
    }
    Ok(freshness)
}
