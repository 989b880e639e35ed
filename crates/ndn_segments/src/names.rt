//! The names of segments.

ghost use Rattle.std.specs.Prelude.{◌≡◌, ◌≤◌, ◌∷◌, ◌++◌, [], MatchResult};
ghost use Rattle.ndn_tlv.specs.Number.{shortest_nni};
ghost use Rattle.ndn_names.specs.View.{components};
ghost use Rattle.ndn_segments.specs.Names.{version_name, segment_name, IsTooLong};

use ndn_names::component_type::{SEGMENT, VERSION};
use ndn_names::{Name, NameBuf, NameFault};
use ndn_tlv::put_nni;
use std::alloc::Global;

/// Returns the name of one version of a file (NDN Naming Conventions, revision 3, "Versioning").
///
/// Returns `TooManyComponents` if the name of the file has 64 components. The only other error is
/// `Memory`.
pub fn version_name(alloc: Global, name: Name<'_>, version: u64) -> Result<NameBuf, NameFault>
    ensures { MatchResult result
        (λ stem. stem ≡ version_name (components name.entry) version)
        (IsTooLong (components name.entry)) }
{
    let mut stem = NameBuf::from_name(alloc, name)?;
    append_number(alloc, &mut stem, VERSION, version)?;
    Ok(stem)
}

/// Returns the name of a segment: the name of one version of a file, and the number of the segment
/// (NDN Naming Conventions, revision 3, "Segmentation").
///
/// Returns `TooManyComponents` if `stem` has 64 components. The only other error is `Memory`.
pub fn segment_name(alloc: Global, stem: Name<'_>, number: u64) -> Result<NameBuf, NameFault>
    ensures { MatchResult result
        (λ segment. segment ≡ segment_name (components stem.entry) number)
        (IsTooLong (components stem.entry)) }
{
    let mut segment = NameBuf::from_name(alloc, stem)?;
    append_number(alloc, &mut segment, SEGMENT, number)?;
    Ok(segment)
}

/// Appends to `name` a component that has the type `kind` and contains the number `number`.
fn append_number(alloc: Global, name: &mut NameBuf, kind: u16, number: u64) -> Result<(), NameFault>
    requires { 3 ≤ kind }
    ensures { MatchResult result
        (λ _. name.new ≡ name.old ++ (kind, shortest_nni number) ∷ [])
        (IsTooLong name.old) }
{
    let mut value = Vec::new(alloc);
    put_nni(&mut value, number)?;
    name.append(kind, &value)
}
