//! The status codes of the repository's replies, and the default lifetime of a want (a pending
//! insert).

ghost use Rattle.std.specs.Prelude.{◌≡◌};

pub const PENDING: u16 = 100;

pub const OK: u16 = 200;

pub const BAD_PARAMETERS: u16 = 400;

pub const NOT_FOUND: u16 = 404;

pub const FULL: u16 = 503;

/// The default lifetime of a want in milliseconds, for a command that gives no lifetime (NDN Packet
/// Format 0.3, "Interest Packet", InterestLifetime).
pub const DEFAULT_LIFETIME: u64 = 4000;

/// Law: the status codes of the repository's replies are 100, 200, 400, 404 and 503, and the
/// default lifetime is that of an Interest without InterestLifetime (NDN Packet Format 0.3,
/// "Interest Packet", InterestLifetime).
pub fn repo_statuses_are_as_assigned()
    ensures done { (PENDING ≡ 100) × (OK ≡ 200) }
    ensures refused { (BAD_PARAMETERS ≡ 400) × (NOT_FOUND ≡ 404) × (FULL ≡ 503) }
    ensures lifetime { DEFAULT_LIFETIME ≡ 4000 }
{}
