//! Reads files of scenarios.

use crate::scenario::Scenario;
use crate::words::{Word, cut_word, meaning_of};
use ndn_tlv::Memory;
use node_core::cut_line;
use std::alloc::Global;
use std::str;
use thiserror::Error;

/// Why a line of a file of scenarios cannot be read.
#[derive(Clone, Copy, Debug, PartialEq, Eq, Error)]
pub enum LineFault {
    #[error("this line must follow a line `scenario NAME` and a line `section TEXT`")]
    Outside,
    #[error("a packet is `packet NAME HEX`, and a file is `file NAME` followed by lines `| TEXT`")]
    Word,
    #[error("a line `| TEXT` must follow a line `file NAME`")]
    Text,
    #[error("options are `--rules NAME`, `--keys NAME`, `--repo URI` and `--cache NUMBER`")]
    Option,
    #[error("out of memory")]
    Memory,
}

impl From<Memory> for LineFault {
    fn from(_: Memory) -> LineFault {
        LineFault::Memory
    }
}

impl From<std::alloc::AllocError> for LineFault {
    fn from(_: std::alloc::AllocError) -> LineFault {
        LineFault::Memory
    }
}

/// The words and scenarios of the lines that were read.
#[derive(Drop)]
pub struct Reading {
    pub alloc: Global,
    pub words: Vec<Word>,
    pub scenarios: Vec<Scenario>,
}

impl Reading {
    pub fn new(alloc: Global) -> Reading {
        Reading {
            alloc,
            words: Vec::new(alloc),
            scenarios: Vec::new(alloc),
        }
    }

    /// Reads the lines of a file. Returns the number of the first line that has a fault, counted
    /// from 1, and the fault.
    pub fn read(&mut self, text: &[u8]) -> Result<(), (u64, LineFault)> {
        let mut rest = text;
        let mut number = 0u64;
        while let Some((line, after)) = cut_line(rest) {
            number = number.saturating_add(1);
            if let Err(fault) = self.read_line(line) {
                return Err((number, fault));
            }
            rest = after;
        }
        if let Err(fault) = self.read_line(rest) {
            return Err((number.saturating_add(1), fault));
        }
        Ok(())
    }

    /// Reads one line.
    fn read_line(&mut self, line: &[u8]) -> Result<(), LineFault> {
        match line {
            [] | [b'#', ..] => Ok(()),
            [b'|', b' ', text @ ..] | [b'|', text @ ..] => self.add_text(text),
            line => self.read_words(line),
        }
    }

    fn read_words(&mut self, line: &[u8]) -> Result<(), LineFault> {
        match cut_word(line) {
            Some((b"packet", rest)) => self.add_packet(rest),
            Some((b"file", name)) => self.add_word(name, b""),
            Some((b"scenario", name)) => self.add_scenario(name),
            Some((key, rest)) => self.add_to_scenario(line, key, rest),
            None => self.add_to_scenario(line, line, b""),
        }
    }

    fn add_packet(&mut self, rest: &[u8]) -> Result<(), LineFault> {
        match cut_word(rest) {
            Some((name, digits)) => self.add_word(name, digits),
            None => Err(LineFault::Word),
        }
    }

    fn add_word(&mut self, name: &[u8], digits: &[u8]) -> Result<(), LineFault> {
        let name = Vec::from_slice(self.alloc, name)?;
        let digits = Vec::from_slice(self.alloc, digits)?;
        match self.words.push(Word { name, digits }) {
            Ok(()) => Ok(()),
            Err(_) => Err(LineFault::Memory),
        }
    }

    /// Adds a line to the file of the last word.
    fn add_text(&mut self, text: &[u8]) -> Result<(), LineFault> {
        let Some(word) = self.words.last_mut() else {
            return Err(LineFault::Text);
        };
        let Ok(digits) = hex::encode(self.alloc, text) else {
            return Err(LineFault::Memory);
        };
        word.digits.extend_from_slice(digits.as_bytes())?;
        word.digits.extend_from_slice(b"0a")?;
        Ok(())
    }

    fn add_scenario(&mut self, name: &[u8]) -> Result<(), LineFault> {
        let scenario = Scenario::new(self.alloc, name)?;
        match self.scenarios.push(scenario) {
            Ok(()) => Ok(()),
            Err(_) => Err(LineFault::Memory),
        }
    }

    fn add_to_scenario(&mut self, line: &[u8], key: &[u8], rest: &[u8]) -> Result<(), LineFault> {
        let Some(scenario) = self.scenarios.last_mut() else {
            return Err(LineFault::Outside);
        };
        if key == b"section".as_slice() {
            scenario.section = Vec::from_slice(self.alloc, rest)?;
            return Ok(());
        }
        if scenario.section.is_empty() {
            return Err(LineFault::Outside);
        }
        if key == b"node".as_slice() {
            return set_options(self.alloc, scenario, self.words.as_slice(), rest);
        }
        scenario.add_line(self.words.as_slice(), line)?;
        Ok(())
    }
}

/// Sets the options of a scenario's node.
fn set_options(
    alloc: Global,
    scenario: &mut Scenario,
    words: &[Word],
    options: &[u8],
) -> Result<(), LineFault> {
    let mut rest = options;
    while let Some((option, after)) = cut_word(rest) {
        let Some((value, behind)) = cut_word(after) else {
            return set_option(alloc, scenario, words, option, after);
        };
        set_option(alloc, scenario, words, option, value)?;
        rest = behind;
    }
    Err(LineFault::Option)
}

fn set_option(
    alloc: Global,
    scenario: &mut Scenario,
    words: &[Word],
    option: &[u8],
    value: &[u8],
) -> Result<(), LineFault> {
    match option {
        b"--rules" => scenario.rules = octets_of(alloc, words, value)?,
        b"--keys" => scenario.keys = octets_of(alloc, words, value)?,
        b"--repo" => scenario.repo = Vec::from_slice(alloc, value)?,
        b"--cache" => scenario.cache = number_of(value)?,
        _ => return Err(LineFault::Option),
    }
    Ok(())
}

/// Returns the octets of the word with this name.
fn octets_of(alloc: Global, words: &[Word], name: &[u8]) -> Result<Vec<u8>, LineFault> {
    match hex::decode(alloc, meaning_of(words, name)) {
        Ok(octets) => Ok(octets),
        Err(_) => Err(LineFault::Option),
    }
}

/// Reads a decimal number below 2 ^ 32.
fn number_of(word: &[u8]) -> Result<u32, LineFault> {
    match str::from_utf8(word) {
        Ok(text) => text.parse::<u32>().map_err(|_| LineFault::Option),
        Err(_) => Err(LineFault::Option),
    }
}
