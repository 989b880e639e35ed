//! Lines of printable ASCII.

ghost use Rattle.std.specs.Prelude.{◌≡◌, ◌++◌, drop, vec_len, Some, IfOk, OnErr, OnOk};
ghost use Rattle.ndn_log.specs.Line.{IsLogged, IsOneLine, is_printable, line_of, shown, shown_text};

use crate::time::put_time;
use ndn_tlv::Memory;
use std::alloc::Global;
use std::fmt;
use std::io::Write;

/// An octet of a line. An octet that is not printable ASCII is shown escaped, so that it cannot
/// control a terminal.
#[derive(Clone, Copy)]
struct Shown(u8);

impl fmt::Display for Shown {
    ghost output = { λ octet. Some (shown octet.0) };

    fn fmt<W: fmt::Write>(&self, f: &mut fmt::Formatter<W>) -> fmt::Result {
        let octet = self.0;
        if is_printable(octet) {
            f.write_char(octet as char)
        } else {
            write!(f, "%{octet:02X}")
        }
    }
}

/// The octets that a line shows, without the LF at the end of the line.
#[derive(Clone, Copy)]
struct ShownText<'a>(&'a [u8]);

impl fmt::Display for ShownText<'_> {
    ghost output = { λ text. Some (shown_text text.0.now) };

    fn fmt<W: fmt::Write>(&self, f: &mut fmt::Formatter<W>) -> fmt::Result {
        for octet in self.0 {
            f.write(Shown(*octet))?;
        }
        Ok(())
    }
}

fn is_printable(octet: u8) -> bool
    ensures { result ≡ is_printable octet }
{
    32 <= octet && octet <= 126
}

/// Appends a line with the time `moment` and the text `words`. `moment` is in milliseconds since
/// 1970. If memory runs out, nothing is appended.
pub fn put_line(alloc: Global, text: &mut Vec<u8>, moment: u64, words: &[u8]) -> Result<(), Memory>
    ensures ok { OnOk result (IsLogged text.old.items text.new.items moment words.now) }
    ensures one_line { OnOk result (IsOneLine (drop (vec_len text.old) text.new.items)) }
    ensures err { OnErr result (text.new.items ≡ text.old.items) }
{
    let mut stamped = Vec::new(alloc);
    put_time(&mut stamped, moment)?;
    stamped.push(b' ')?;
    stamped.extend_from_slice(words)?;
    put_shown(alloc, text, &stamped)
}

/// Appends the line that shows these octets. If memory runs out, nothing is appended.
fn put_shown(alloc: Global, text: &mut Vec<u8>, octets: &[u8]) -> Result<(), Memory>
    ensures ok { OnOk result (text.new.items ≡ text.old.items ++ line_of octets.now) }
    ensures one_line { OnOk result (IsOneLine (drop (vec_len text.old) text.new.items)) }
    ensures err { OnErr result (text.new.items ≡ text.old.items) }
{
    let line = shown_line(alloc, octets)?;
    text.extend_from_slice(&line)?;
    Ok(())
}

/// Returns the line that shows these octets, with its LF.
fn shown_line(alloc: Global, octets: &[u8]) -> Result<Vec<u8>, Memory>
    ensures text { IfOk result (λ line. line.items ≡ line_of octets.now) }
    ensures one_line { IfOk result (λ line. IsOneLine line.items) }
{
    let mut line = Vec::new(alloc);
    writeln!(line, "{}", ShownText(octets)).map_err(|_| Memory)?;
    Ok(line)
}
