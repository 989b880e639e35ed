//! The report on scenarios: a line for each scenario, and a line with counts.
ghost use Rattle.std.specs.Prelude.{◌≡◌, ◌↔◌, ◌++◌, List, ℕ, IfOk, IsTrue, OnOk};
ghost use Rattle.scenarios.specs.Report.{without_lf as without_lf_of, shown, passed_line};
ghost use Rattle.scenarios.specs.Report.{difference_line, counts_line};
ghost use Rattle.scenarios.specs.Report.{IsReport, Reported, AreReported};

use crate::differ::first_difference;
use crate::play::{PlayFault, played};
use crate::scenario::Scenario;
use itoa::Buffer;
use ndn_tlv::Memory;
use std::alloc::Global;

/// How many scenarios passed, and how many differed.
#[derive(Clone, Copy, PartialEq, Eq)]
pub struct Counts {
    pub passed: u64,
    pub differ: u64,
}

/// Why the scenario at a place, counted from 0, could not be played.
#[derive(Clone, Copy, PartialEq, Eq)]
pub struct Unplayed {
    pub place: u64,
    pub fault: PlayFault,
}

/// Returns a line without its LF.
fn without_lf(line: &[u8]) -> &[u8]
    ensures { result.now ≡ without_lf_of line.now }
{
    let end = line.len().saturating_sub(1);
    if end < line.len() && line[end] == b'\n' {
        return &line[..end];
    }
    line
}

/// Appends a line of answers as a report shows it: without its LF, between backquotes, or `nothing`
/// for the empty line.
fn put_shown(report: &mut Vec<u8>, line: &[u8]) -> Result<(), Memory>
    ensures { OnOk result (report.new.items ≡ report.old.items ++ shown line.now) }
{
    if line.is_empty() {
        report.extend_from_slice(b"nothing")?;
        return Ok(());
    }
    report.push(b'`')?;
    report.extend_from_slice(without_lf(line))?;
    report.push(b'`')?;
    Ok(())
}

/// Appends the line of a scenario that passed.
fn put_passed(report: &mut Vec<u8>, name: &[u8]) -> Result<(), Memory>
    ensures { OnOk result (report.new.items ≡ report.old.items ++ passed_line name.now) }
{
    report.extend_from_slice(name)?;
    report.extend_from_slice(b": passed\n")?;
    Ok(())
}

/// Appends the line of a scenario that differs, with the expected line and the line that was found.
fn put_difference(
    report: &mut Vec<u8>,
    name: &[u8],
    expected: &[u8],
    found: &[u8],
) -> Result<(), Memory>
    ensures { OnOk result (report.new.items
        ≡ report.old.items ++ difference_line name.now expected.now found.now) }
{
    report.extend_from_slice(name)?;
    report.extend_from_slice(b": expected ")?;
    put_shown(report, expected)?;
    report.extend_from_slice(b", found ")?;
    put_shown(report, found)?;
    report.extend_from_slice(b"\n")?;
    Ok(())
}

/// Appends the line of a scenario: that it passed, or the first line in which the answers differ.
/// Returns whether it passed.
fn put_report(
    report: &mut Vec<u8>,
    name: &[u8],
    expected: &[u8],
    found: &[u8],
) -> Result<bool, Memory>
    ensures { IfOk result (λ passed. (line : List ℕ)
        × IsReport name.now expected.now found.now line
        × (report.new.items ≡ report.old.items ++ line)
        × (IsTrue passed ↔ (expected.now ≡ found.now))) }
{
    match first_difference(expected, found) {
        None => {
            put_passed(report, name)?;
            Ok(true)
        }
        Some((left, right)) => {
            put_difference(report, name, left, right)?;
            Ok(false)
        }
    }
}

/// Appends the line with the counts.
fn put_counts(report: &mut Vec<u8>, counts: Counts) -> Result<(), Memory>
    ensures { OnOk result
        (report.new.items ≡ report.old.items ++ counts_line counts.passed counts.differ) }
{
    report.extend_from_slice(Buffer::new().format(counts.passed).as_bytes())?;
    report.extend_from_slice(b" passed, ")?;
    report.extend_from_slice(Buffer::new().format(counts.differ).as_bytes())?;
    report.extend_from_slice(b" differ\n")?;
    Ok(())
}

/// Plays a scenario, and appends its line. Returns whether it passed.
fn put_played(alloc: Global, report: &mut Vec<u8>, scenario: &Scenario) -> Result<bool, PlayFault>
    ensures { IfOk result (λ passed. (line : List ℕ) × Reported scenario.now line passed
        × (report.new.items ≡ report.old.items ++ line)) }
{
    let found = played(alloc, scenario)?;
    match put_report(report, &scenario.name, &scenario.answers, &found) {
        Ok(passed) => Ok(passed),
        Err(Memory) => Err(PlayFault::Memory),
    }
}

/// Plays scenarios in turn. Appends the line of each, and then the line with the counts.
pub fn put_reports(
    alloc: Global,
    report: &mut Vec<u8>,
    scenarios: &[Scenario],
) -> Result<Counts, Unplayed>
    ensures { IfOk result (λ counts. (lines : List ℕ)
        × AreReported scenarios.now lines counts.passed counts.differ
        × (report.new.items
        ≡ report.old.items ++ (lines ++ counts_line counts.passed counts.differ))) }
{
    let counts = put_lines(alloc, report, scenarios)?;
    match put_counts(report, counts) {
        Ok(()) => Ok(counts),
        Err(Memory) => Err(Unplayed {
            place: scenarios.len() as u64,
            fault: PlayFault::Memory,
        }),
    }
}

/// Plays scenarios in turn, and appends the line of each.
fn put_lines(
    alloc: Global,
    report: &mut Vec<u8>,
    scenarios: &[Scenario],
) -> Result<Counts, Unplayed>
    ensures { IfOk result (λ counts. (lines : List ℕ)
        × AreReported scenarios.now lines counts.passed counts.differ
        × (report.new.items ≡ report.old.items ++ lines)) }
{
    let mut passed = 0u64;
    let mut differ = 0u64;
    for scenario in scenarios {
        let is_passed = match put_played(alloc, report, scenario) {
            Ok(is_passed) => is_passed,
            Err(fault) => {
                let place = passed + differ;
                return Err(Unplayed { place, fault });
            }
        };
        if is_passed {
            passed += 1;
        } else {
            differ += 1;
        }
    }
    Ok(Counts { passed, differ })
}
