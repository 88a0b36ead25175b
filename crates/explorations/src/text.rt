//! The result of a search as text.

use crate::exploration::{Discovery, Exploration, SeenKind};
use crate::json::line_of;
use crate::schedule::items_of;
use crate::shell::word_of;
use std::alloc::{AllocError, Global};

/// The fewest runs for which the odds of missing a schedule are printed.
const FEWEST_RUNS: u64 = 3;

// Returns the ending of a noun after a number.
fn ending(count: u64) -> &'static str {
    if count == 1 { "" } else { "s" }
}

// Appends the line of the kinds that the runs showed, unless there are none.
fn add_seen(alloc: Global, out: &mut String, seen: &[SeenKind]) -> Result<(), AllocError> {
    for (index, SeenKind { kind, runs }) in seen.iter().enumerate() {
        let before = if index == 0 { "seen " } else { ", " };
        out.push_str(format!(in alloc; "{before}{kind} {runs}")?.as_str())?;
    }
    if !seen.is_empty() {
        out.push('\n')?;
    }
    Ok(())
}

// Returns what was found, and where, with its sentences.
fn headline(alloc: Global, seed: u64, found: &Discovery<'_>) -> Result<String, AllocError> {
    let Discovery {
        name,
        moment,
        run,
        text,
        ..
    } = found;
    let (before, after) = if text.is_empty() {
        ("", "")
    } else {
        ("  ", "\n")
    };
    format!(in alloc;
        "found {name} at {moment} in run {run} of seed {seed}\n{before}{text}{after}\n"
    )
}

// Returns the schedule, or the subcommands for the script that has it.
fn schedule_text(alloc: Global, found: &Discovery<'_>) -> Result<String, AllocError> {
    let Some(path) = found.out else {
        return line_of(alloc, &items_of(alloc, found.schedule)?);
    };
    let word = word_of(alloc, path)?;
    match found.kind {
        Some(kind) => format!(in alloc; "explain {word} --kind {kind}\nwalk {word}\n"),
        None => format!(in alloc; "walk {word}\n"),
    }
}

// Returns the number of events before and after the shrinking, and the schedule.
fn shrunk_text(alloc: Global, found: &Discovery<'_>) -> Result<String, AllocError> {
    let length = found.length;
    let noun = ending(u64::from(length));
    let shrunk = found.schedule.len();
    let schedule = schedule_text(alloc, found)?;
    format!(in alloc; "schedule {length} event{noun}, shrunk to {shrunk}\n{schedule}")
}

// Returns the text of a search that found something.
fn discovery_text(
    alloc: Global,
    search: &Exploration<'_, '_>,
    found: &Discovery<'_>,
) -> Result<String, AllocError> {
    let headline = headline(alloc, search.seed, found)?;
    let Exploration { runs, events, .. } = search;
    let mut out = format!(in alloc; "{headline}runs {runs}, events {events}\n")?;
    add_seen(alloc, &mut out, search.seen)?;
    out.push_str(shrunk_text(alloc, found)?.as_str())?;
    Ok(out)
}

// Returns the text of a search that found nothing.
fn nothing_text(alloc: Global, search: &Exploration<'_, '_>) -> Result<String, AllocError> {
    let Exploration {
        seed,
        runs,
        events,
        ..
    } = search;
    let noun = ending(*runs);
    let mut out = format!(in alloc;
        "nothing found in {runs} run{noun} of seed {seed}, events {events}\n"
    )?;
    add_seen(alloc, &mut out, search.seen)?;
    if *runs >= FEWEST_RUNS {
        let odds = *runs / FEWEST_RUNS;
        let line = format!(in alloc;
            "a schedule that one run in {odds} shows is missed by one such search in twenty\n"
        )?;
        out.push_str(line.as_str())?;
    }
    if let Some(path) = search.unwritten {
        out.push_str(format!(in alloc; "{path} was not written\n")?.as_str())?;
    }
    Ok(out)
}

// Returns the lines before the result: whether runs may be late, and what fails in each of them.
fn preface(alloc: Global, search: &Exploration<'_, '_>) -> Result<String, AllocError> {
    let mut out = String::new(alloc);
    if search.late {
        out.push_str("requests may be issued late\n")?;
    }
    for failure in search.every_run {
        out.push_str(format!(in alloc; "every run: {failure}\n")?.as_str())?;
    }
    Ok(out)
}

/// Returns the result of a search as lines of text.
pub fn text_of(alloc: Global, exploration: &Exploration<'_, '_>) -> Result<String, AllocError> {
    let mut out = preface(alloc, exploration)?;
    let result = match &exploration.discovery {
        Some(found) => discovery_text(alloc, exploration, found)?,
        None => nothing_text(alloc, exploration)?,
    };
    out.push_str(result.as_str())?;
    Ok(out)
}
