//! The forms of a requirement on a name.

use crate::keys::{Key, Keys};

/// The form in which a block states its requirement on a name.
#[derive(Clone, Copy, PartialEq, Eq)]
pub enum Form {
    /// The keys `name` and `relation` state the requirement.
    Related,
    /// The key `regex` states the requirement.
    Matching,
    /// The key `hyper-relation` states the requirement.
    Hyper,
}

/// The name that a block states a requirement on.
#[derive(Clone, Copy)]
pub enum Tested {
    /// The name of the packet, in a filter.
    PacketName,
    /// The name of the key, in a key locator.
    KeyName,
}

impl Tested {
    ghost use Rattle.std.specs.Prelude.{◌≡◌};
    ghost use Rattle.std.specs.Option.{option_map};
    ghost use Rattle.info_rules.specs.NameTest.{form_of};
    ghost use Rattle.info_rules.specs.Shown.{key_of, tested_of, name_form_of};

    /// Returns the form that `key` belongs to, if any.
    #[tactic(auto, unfolding(crate::specs::NameTest::form_of))]
    fn form_of(self, key: Key<'_>) -> Option<Form>
        ensures { option_map name_form_of result ≡ form_of (tested_of self) (key_of key.entry) }
    {
        match (key.own.key.as_str(), self) {
            ("name" | "relation", _) => Some(Form::Related),
            ("regex", _) => Some(Form::Matching),
            ("hyper-relation", Tested::KeyName) => Some(Form::Hyper),
            _ => None,
        }
    }
}

ghost use Rattle.std.specs.Prelude.{◌≡◌};
ghost use Rattle.std.specs.Option.{option_map};
ghost use Rattle.info_rules.specs.NameTest.{other_form_of, first_other};
ghost use Rattle.info_rules.specs.Shown.{key_of, keys_of, tested_of, name_form_of, found_form_of};

/// Returns the form and the line of `key`, or `None` if `key` belongs to no form or to the form
/// `other`.
fn other_form_of(tested: Tested, other: Option<Form>, key: Key<'_>) -> Option<(Form, u32)>
    ensures { option_map found_form_of result
        ≡ other_form_of (tested_of tested) (option_map name_form_of other) (key_of key.entry) }
{
    let form = tested.form_of(key)?;
    match other {
        Some(other) if form == other => None,
        _ => Some((form, key.own.line)),
    }
}

/// Returns the form and the line of the first key that belongs to a form other than `other`, or to
/// any form if `other` is `None`. Returns `None` if there is no such key.
pub fn first_other(tested: Tested, other: Option<Form>, keys: Keys<'_>) -> Option<(Form, u32)>
    ensures { option_map found_form_of result
        ≡ first_other (tested_of tested) (option_map name_form_of other) (keys_of keys.entry) }
{
    let mut left = keys;
    while let Some((key, others)) = left.split_first() {
        let found = other_form_of(tested, other, key);
        if found.is_some() {
            return found;
        }
        left = others;
    }
    None
}
