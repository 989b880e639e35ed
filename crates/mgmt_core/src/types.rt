//! The status codes of replies to commands (NFD Management, "Control Command").

ghost use Rattle.std.specs.Prelude.{◌≡◌};

pub const OK: u16 = 200;

pub const BAD_PARAMETERS: u16 = 400;

pub const UNKNOWN_STRATEGY: u16 = 404;

pub const FACE_NOT_OPEN: u16 = 410;

pub const PREFIX_TOO_LONG: u16 = 414;

pub const UNKNOWN_COMMAND: u16 = 501;

pub const TABLE_FULL: u16 = 503;

/// Law: the status codes are those of NFD Management, "Control Command", and in addition 414 for a
/// name that is too long for a table and 503 for a full table.
pub fn command_statuses_are_as_assigned()
    ensures done { OK ≡ 200 }
    ensures refused { (BAD_PARAMETERS ≡ 400) × (UNKNOWN_STRATEGY ≡ 404) × (FACE_NOT_OPEN ≡ 410)
        × (PREFIX_TOO_LONG ≡ 414) × (UNKNOWN_COMMAND ≡ 501) × (TABLE_FULL ≡ 503) }
{}
