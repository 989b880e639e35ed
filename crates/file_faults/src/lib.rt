//! The messages that the programs print for a fault in a key file, and the reasons that the
//! programs give for a file that cannot be read.
#![tactic(auto)]

ghost use Rattle.std.specs.Prelude.{◌≡◌, Some};
ghost use Rattle.file_faults.specs.Advice.{advice_on_keys, cause_of, key_text};

use key_files::KeyFault;
use std::fmt;
use std::io::ErrorKind;

/// The message for a fault in a key file. The first line of the message has the number of the
/// faulty line and the kind of the fault. The line number is 0 for `TooMany` and for a file that is
/// not UTF-8. The second line of the message tells what is wrong and how to correct it. The message
/// for `Memory` is a single line without a number. Each message ends with an LF.
#[derive(Clone, Copy)]
pub struct KeyMessage(pub KeyFault);

impl fmt::Display for KeyMessage {
    ghost output = { λ message. Some (key_text message.0) };

    fn fmt<W: fmt::Write>(&self, f: &mut fmt::Formatter<W>) -> fmt::Result {
        let fault = self.0;
        let advice = advice_on_keys(fault);
        match fault {
            KeyFault::BadLine(line) => writeln!(f, "keys:{line}: BadLine\n  {advice}"),
            KeyFault::BadKey(line) => writeln!(f, "keys:{line}: BadKey\n  {advice}"),
            KeyFault::TwiceNamed(line) => writeln!(f, "keys:{line}: TwiceNamed\n  {advice}"),
            KeyFault::TooMany => writeln!(f, "keys:0: TooMany\n  {advice}"),
            KeyFault::Memory => f.write_str("error: out of memory\n"),
        }
    }
}

/// Returns what is wrong in a key file, and how to correct it.
#[tactic(auto, unfolding(crate::specs::Advice::advice_on_keys))]
fn advice_on_keys(fault: KeyFault) -> &'static str
    ensures { result.now ≡ advice_on_keys fault }
{
    match fault {
        KeyFault::BadLine(0) => "the file is not UTF-8 text: write it in UTF-8 or ASCII",
        KeyFault::BadLine(_) => {
            "a line is a name, one space, and 1 to 256 octets in hexadecimal: /ops/KEY/1 6b6579"
        }
        KeyFault::BadKey(_) => {
            "ecdsa-p256 and a public key of P-256, 130 digits that begin with 04, go together on a line"
        }
        KeyFault::TwiceNamed(_) => "an earlier line has this name: give each name once",
        KeyFault::TooMany => "at most 256 keys are allowed: leave out those that no rule asks for",
        KeyFault::Memory => "out of memory",
    }
}

/// Returns why a file cannot be read.
#[tactic(auto, unfolding(crate::specs::Advice::cause_of))]
pub fn cause_of(kind: ErrorKind) -> &'static str
    ensures { result.now ≡ cause_of kind }
{
    match kind {
        ErrorKind::NotFound => "there is no such file",
        ErrorKind::PermissionDenied => "permission denied",
        ErrorKind::IsADirectory => "it is a directory",
        ErrorKind::NotADirectory => "a part of its path is not a directory",
        ErrorKind::InvalidFilename => "its name is too long",
        ErrorKind::FilesystemLoop => "its path has too many symbolic links",
        _ => "the system refused it",
    }
}
