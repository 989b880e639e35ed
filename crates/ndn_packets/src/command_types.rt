//! TLV-TYPEs that the standards assign to commands, to their replies and to datasets. TLV-TYPEs
//! that commands share with packets, such as the TLV-TYPE of the Name, are in the module `types`.

ghost use Rattle.std.specs.Prelude.{◌≡◌};

/// The type of the parameters of a command to a node, and of the body of the reply (NFD Management,
/// "Control Command", ControlParameters).
pub const CONTROL_PARAMETERS: u32 = 104;

/// The type of the parameters of a command to a repository (repo-ng, RepoCommandParameter).
pub const REPO_COMMAND_PARAMETER: u32 = 201;

/// The types of some fields of ControlParameters (NFD Management, "Control Command",
/// ControlParameters).
pub const FACE_ID: u32 = 105;

pub const COST: u32 = 106;

pub const STRATEGY: u32 = 107;

pub const FLAGS: u32 = 108;

pub const EXPIRATION_PERIOD: u32 = 109;

pub const ORIGIN: u32 = 111;

pub const COUNT: u32 = 132;

/// The types of the reply of a node and of the fields of this reply (NFD Management, "Control
/// Command", ControlResponse).
pub const CONTROL_RESPONSE: u32 = 101;

pub const STATUS_CODE: u32 = 102;

pub const STATUS_TEXT: u32 = 103;

/// The types of the reply of a repository and of the status code in this reply (repo-ng,
/// RepoCommandResponse).
pub const REPO_COMMAND_RESPONSE: u32 = 207;

pub const REPO_STATUS_CODE: u32 = 208;

/// The types of an entry of a dataset and of a next hop in an entry (NFD Management, "FIB Dataset",
/// "Strategy Choice Dataset").
pub const ENTRY: u32 = 128;

pub const NEXT_HOP: u32 = 129;

/// Law: these constants are the numbers that the standards assign (NFD Management, "Control
/// Command", "FIB Dataset" and "Strategy Choice Dataset"; repo-ng, RepoCommandParameter and
/// RepoCommandResponse).
pub fn command_types_are_as_assigned()
    ensures parameters { (CONTROL_PARAMETERS ≡ 104) × (REPO_COMMAND_PARAMETER ≡ 201) }
    ensures fields { (FACE_ID ≡ 105) × (COST ≡ 106) × (STRATEGY ≡ 107) × (FLAGS ≡ 108)
        × (EXPIRATION_PERIOD ≡ 109) × (ORIGIN ≡ 111) × (COUNT ≡ 132) }
    ensures replies { (CONTROL_RESPONSE ≡ 101) × (STATUS_CODE ≡ 102) × (STATUS_TEXT ≡ 103)
        × (REPO_COMMAND_RESPONSE ≡ 207) × (REPO_STATUS_CODE ≡ 208) }
    ensures lists { (ENTRY ≡ 128) × (NEXT_HOP ≡ 129) }
{}
