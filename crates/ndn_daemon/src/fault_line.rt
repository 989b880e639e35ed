//! Faults that are reported while a node runs: lines of a log, with the time first.
ghost use Rattle.std.specs.Prelude.{◌≡◌, [], map, IfOk, IfSome};
ghost use Rattle.ndn_log.specs.Line.{IsLogged};
ghost use Rattle.ndn_daemon.specs.Fault.{text_of};
ghost use Rattle.ndn_daemon.specs.FaultLine.{in_line, words_of};

use crate::fault::Fault;
use ndn_log::put_line;
use ndn_tlv::Memory;
use std::alloc::Global;
use std::io::Write;

/// Reports a fault on standard error, as a line of a log with the time `moment`, which is in
/// milliseconds since 1970. If memory runs out for the line, the fault is reported without the
/// time. Unlike a log, the program waits for the reader of standard error.
pub fn report_fault<R: AllocGlobal + Eprint>(rt: &R, moment: u64, fault: &Fault) {
    match line_of(rt.alloc(), moment, fault) {
        Ok(line) => {
            if let Ok(text) = str::from_utf8(&line) {
                let _printed = rt.eprint(text);
            }
        }
        Err(_) => {
            let _printed = rt.eprint(fault);
        }
    }
}

/// Returns the line of a fault.
fn line_of(alloc: Global, moment: u64, fault: &Fault) -> Result<Vec<u8>, Memory>
    ensures { IfOk result (λ line. IfSome (text_of fault.now)
        (λ text. IsLogged [] line.items moment (words_of text))) }
{
    let words = words_of(alloc, fault)?;
    let mut line = Vec::new(alloc);
    put_line(alloc, &mut line, moment, &words)?;
    Ok(line)
}

/// Returns the message of a fault as a line shows it: in one line, without an LF at its end.
fn words_of(alloc: Global, fault: &Fault) -> Result<Vec<u8>, Memory>
    ensures { IfOk result (λ words. IfSome (text_of fault.now)
        (λ text. words.items ≡ words_of text)) }
{
    let mut text = Vec::new(alloc);
    write!(text, "{fault}").map_err(|_| Memory)?;
    text.pop();
    joined(alloc, &text)
}

/// Returns the text with a colon in place of each LF.
fn joined(alloc: Global, text: &[u8]) -> Result<Vec<u8>, Memory>
    ensures { IfOk result (λ words. words.items ≡ map in_line text.now) }
{
    let mut words = Vec::new(alloc);
    for octet in text {
        words.push(in_line(*octet))?;
    }
    Ok(words)
}

/// Returns the octet, or a colon in place of an LF.
fn in_line(octet: u8) -> u8
    ensures { result ≡ in_line octet }
{
    if octet == b'\n' { b':' } else { octet }
}
