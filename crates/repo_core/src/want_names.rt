ghost use Rattle.std.specs.Prelude.{◌≡◌, Some, IfOk, IfSome, IsOk};
ghost use Rattle.std.specs.Option.{option_map};
ghost use Rattle.ndn_names.specs.View.{components};
ghost use Rattle.repo_core.specs.Room.{AreAlike};

use ndn_names::{Name, NameBuf};
use ndn_tlv::Memory;
use std::alloc::Global;

/// Two copies of a name: one for the key of a want (a pending insert), one for the Interest to
/// send.
#[derive(Drop)]
pub struct Names {
    pub key: NameBuf,
    pub fetched: NameBuf,
}

impl Names {
    pub fn new(alloc: Global, name: Name<'_>) -> Result<Names, Memory>
        ensures key { IfOk result (λ n. n.key ≡ components name.entry) }
        ensures alike { IfOk result AreAlike }
    {
        let key = NameBuf::from_name(alloc, name)?;
        let fetched = NameBuf::from_name(alloc, name)?;
        Ok(Names { key, fetched })
    }
}

/// Returns two copies of a name: `spare` if `spare` contains copies of this name, otherwise new
/// copies.
pub fn names_for(alloc: Global, spare: Option<Names>, name: Name<'_>) -> Result<Names, Memory>
    requires { IfSome spare AreAlike }
    ensures key { IfOk result (λ n. n.key ≡ components name.entry) }
    ensures alike { IfOk result AreAlike }
    ensures spared { option_map (λ n. n.key) spare ≡ Some (components name.entry) → IsOk result }
{
    match spare {
        Some(names) if name.compare(names.key.view()).is_eq() => Ok(names),
        _ => Names::new(alloc, name),
    }
}
