//! The runs of a case, and what is wanted of each.
use crate::case::{Case, joined, moving, words_of};
use crate::marked::unmarked;
use crate::running::{ROOM, Told, no_files, run, run_both};
use outside::MemoryFiles;
use std::alloc::Global;
use std::test::Fail;

// The status where the sink is full.
const FULL: u64 = 6;

// The most bytes of a line that are reported.
const SHOWN: usize = 1_000;

// The number of the first line, from 0, at which the texts differ, or else of the line behind the shorter one.
fn first_differing(told: &str, wanted: &str) -> usize {
    let mut number = 0usize;
    for (line, other) in told.lines().zip(wanted.lines()) {
        if line != other {
            return number;
        }
        number = number.saturating_add(1);
    }
    number
}

// Reports a line of what a run told, or the front of a long one.
fn report_line(report: &mut String, who: &str, run: &Told, number: usize) -> Result<(), Fail> {
    let text = run.text.as_str();
    let line = text.lines().nth(number).unwrap_or("");
    let shown = line.get(..SHOWN).unwrap_or(line);
    writeln!(
        report,
        "  {who} status {}, {} bytes: {shown}",
        run.status,
        text.len()
    )?;
    Ok(())
}

/// Reports the first line that differs, where a run isn't as wanted.
pub fn compare(report: &mut String, name: &str, told: &Told, wanted: &Told) -> Result<(), Fail> {
    let (text, other) = (told.text.as_str(), wanted.text.as_str());
    if told.status == wanted.status && text == other {
        return Ok(());
    }
    let number = first_differing(text, other);
    writeln!(report, "{name}: line {} differs", number.saturating_add(1))?;
    report_line(report, "wanted", wanted, number)?;
    report_line(report, "told", told, number)
}

// This status, and the first so many bytes.
fn front(alloc: Global, status: u64, text: &str, room: usize) -> Result<Told, Fail> {
    let text = String::from_str(alloc, text.get(..room).unwrap_or(text))?;
    Ok(Told { status, text })
}

// Runs the script with each room that is too small.
fn check_rooms(
    alloc: Global,
    report: &mut String,
    case: &Case,
    script: &str,
    wanted: &Told,
) -> Result<(), Fail> {
    for room in 0..wanted.text.len() {
        let told = run(alloc, case, "", script, room, &mut no_files(alloc))?;
        let name = format!(in alloc; "{}, with room for {room} bytes", case.name)?;
        let wanted = front(alloc, FULL, wanted.text.as_str(), room)?;
        compare(report, name.as_str(), &told, &wanted)?;
    }
    Ok(())
}

// What was told but for the lines that answer moves.
fn without_moves(alloc: Global, told: &Told, refused: &str) -> Result<Told, Fail> {
    let mut text = String::new(alloc);
    for line in told.text.as_str().lines() {
        if !line.starts_with("moved ") && !line.starts_with(refused) {
            writeln!(text, "{line}")?;
        }
    }
    let status = told.status;
    Ok(Told { status, text })
}

// Whether a move answered, other than so.
fn tells_a_move(text: &str, other: &str) -> bool {
    for line in text.lines() {
        if line.starts_with("moved ") && line != other {
            return true;
        }
    }
    false
}

// Runs the script with moves to the versions that an option names, from each of them on.
fn check_moves(
    alloc: Global,
    report: &mut String,
    case: &Case,
    option: &str,
    wanted: &Told,
) -> Result<(), Fail> {
    let versions = words_of(alloc, case.said(option).unwrap_or(""))?;
    if versions.is_empty() && case.has(option) {
        writeln!(report, "{}: no version to move to", case.name)?;
    }
    // Everywhere means that a move may be refused, since the version isn't there yet, but that some data moves.
    let (unmoved, refused, still) = if option == "everywhere" {
        (0, "refused 11 ", "moved 0")
    } else {
        (case.fronts, "moved ", "")
    };
    let wanted = without_moves(alloc, wanted, refused)?;
    for (place, version) in versions.iter().enumerate() {
        let statements = case.script.statements.as_slice();
        let script = moving(alloc, statements, unmoved, versions.as_slice(), place)?;
        let told = run(alloc, case, "", script.as_str(), ROOM, &mut no_files(alloc))?;
        let name = format!(in alloc; "{}, with moves from {version} on", case.name)?;
        if !tells_a_move(told.text.as_str(), still) {
            writeln!(report, "{name}: nothing is moved")?;
        }
        let told = without_moves(alloc, &told, refused)?;
        compare(report, name.as_str(), &told, &wanted)?;
    }
    Ok(())
}

// Runs the script in two parts with a dump between, at each place.
fn check_dumps(alloc: Global, report: &mut String, case: &Case, wanted: &Told) -> Result<(), Fail> {
    let statements = case.script.statements.as_slice();
    for place in 0..=statements.len() {
        let first = joined(alloc, statements.get(..place).unwrap_or(&[]))?;
        let second = joined(alloc, statements.get(place..).unwrap_or(&[]))?;
        let told = run_both(alloc, case, first.as_str(), second.as_str())?;
        let name = format!(in alloc; "{}, with a dump behind statement {place}", case.name)?;
        compare(report, name.as_str(), &told, wanted)?;
    }
    Ok(())
}

// Makes the runs besides the first, which tell the same but for what answers the moves.
fn check_others(
    alloc: Global,
    report: &mut String,
    case: &Case,
    script: &str,
    wanted: &Told,
) -> Result<(), Fail> {
    check_moves(alloc, report, case, "everywhere", wanted)?;
    check_moves(alloc, report, case, "unnoticed", wanted)?;
    if case.has("dumped") {
        check_dumps(alloc, report, case, wanted)?;
    }
    if case.has("rooms") {
        check_rooms(alloc, report, case, script, wanted)?;
    }
    Ok(())
}

// The status that the case says, and its answers, or else what the first run told.
fn wanted_of(alloc: Global, case: &Case, told: &Told, room: usize) -> Result<Told, Fail> {
    let status = case.number("status", 0)?;
    if case.is_by_lines() {
        return front(alloc, status, told.text.as_str(), room);
    }
    let answers = unmarked(alloc, case.script.answers.as_str())?;
    let answers = String::from_utf8_lossy(alloc, answers.as_slice())?;
    front(alloc, status, answers.as_str(), room)
}

/// Makes all runs of a case, the first one over these files. Reports what is other than wanted.
pub fn check(
    alloc: Global,
    report: &mut String,
    case: &Case,
    files: &mut MemoryFiles,
) -> Result<(), Fail> {
    let script = joined(alloc, case.script.statements.as_slice())?;
    let words = case.said("words").unwrap_or("");
    let room = case.number("room", ROOM as u64)? as usize;
    let told = run(alloc, case, words, script.as_str(), room, files)?;
    let wanted = wanted_of(alloc, case, &told, room)?;
    compare(report, case.name.as_str(), &told, &wanted)?;
    check_others(alloc, report, case, script.as_str(), &wanted)
}
