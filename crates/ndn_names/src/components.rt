ghost use Rattle.ndn_names.specs.Name.{IsNameOctets, IsNameOctets-prop};

use crate::component::{Component, first_component};
use std::alloc::AllocError;

/// An iterator over the components of a name, from the first to the last.
#[derive(Debug, Drop)]
pub struct Components<'a> {
    pub(crate) rest: &'a [u8],
    ghost spelled: { IsNameOctets rest.now } by { IsNameOctets-prop rest.now },
}

impl Clone for Components<'_> {
    ghost use Rattle.std.specs.Prelude.{◌≡◌, ⊤};
    ghost use Rattle.ndn_names.specs.View.{components_left};

    ghost is_clone = { λ it copy. components_left copy ≡ components_left it };

    ghost is_infallible = { λ _. ⊤ };

    fn clone(&self) -> Result<Self, AllocError> {
        Ok(Components { rest: self.rest })
    }
}

impl<'a> Iterator for Components<'a> {
    type Item = Component<'a>;

    ghost use Rattle.std.specs.Iterator.{YieldsFirstBy, item_count};
    ghost use Rattle.ndn_names.specs.View.{field_of, components_left};

    ghost next_gives = { YieldsFirstBy field_of components_left };

    ghost remaining = { item_count components_left };

    #[inline(always)]
    fn next(&mut self) -> Option<Component<'a>> {
        match first_component(self.rest) {
            Ok((component, rest)) => {
                self.rest = rest;
                Some(component)
            }
            Err(_) => None,
        }
    }
}
