//! The lines that report what is wrong with a script.

use crate::document::Wording;
use crate::failing::{SureFailure, sure_failures};
use crate::fault_sentences::{is_unknown, sentence, unknown_key};
use crate::further::{MOST_FAULTS, faults_of};
use crate::locating::{Position, key_word, offset_of, position_of};
use crate::not_json::no_json;
use json_offsets::members_of;
use machine::Setup;
use script::items::{item_path, key_path};
use script::{Key, Path, ScriptFault};
use serde_json::Value;
use source_map::{Spans, spans_of};
use std::alloc::{AllocError, Global};

/// A script's text, and the name of its file.
#[derive(Clone, Copy)]
pub(crate) struct Source<'a> {
    pub name: &'a str,
    pub text: &'a [u8],
}

// The lines of a report, and their number.
#[derive(Drop)]
struct Lines {
    alloc: Global,
    out: String,
    count: usize,
}

// Returns a path as text, such as `threads 0 3`: its key and its indexes.
fn path_text(alloc: Global, path: Path) -> Wording {
    let word = key_word(path.key);
    match (path.item, path.inner) {
        (Some(item), Some(inner)) => format!(in alloc; "{word} {item} {inner}"),
        (Some(item), None) => format!(in alloc; "{word} {item}"),
        (None, _) => String::from_str(alloc, word),
    }
}

impl Lines {
    fn new(alloc: Global) -> Lines {
        Lines {
            alloc,
            out: String::new(alloc),
            count: 0,
        }
    }

    // Adds a line about a path, with the line and the column of an offset, unless there are 20.
    fn add(
        &mut self,
        source: Source<'_>,
        offset: usize,
        path: Path,
        sentence: &str,
    ) -> Result<(), AllocError> {
        if self.count >= MOST_FAULTS {
            return Ok(());
        }
        self.count = self.count.saturating_add(1);
        let name = source.name;
        let Position { line, column } = position_of(source.text, offset);
        let path = path_text(self.alloc, path)?;
        let message = format!(in self.alloc; "{name}:{line}:{column}: {path}: {sentence}\n")?;
        self.out.push_str(message.as_str())
    }

    // Adds a line for each unknown key of the document.
    fn add_unknown_keys(&mut self, source: Source<'_>) -> Result<(), AllocError> {
        for member in &members_of(self.alloc, source.text)? {
            if is_unknown(&member.key) {
                let message = unknown_key(self.alloc, &member.key)?;
                self.add(source, member.at, key_path(Key::Document), message.as_str())?;
            }
        }
        Ok(())
    }

    fn add_fault(
        &mut self,
        source: Source<'_>,
        spans: &Spans,
        document: &Value,
        fault: ScriptFault,
    ) -> Result<(), AllocError> {
        let path = path_of(fault);
        if document.is_object() && matches!(path.key, Key::Document) {
            return self.add_unknown_keys(source);
        }
        let message = sentence(self.alloc, document, fault)?;
        let offset = offset_of(source.text, spans, path);
        self.add(source, offset, path, message.as_str())
    }
}

fn path_of(fault: ScriptFault) -> Path {
    match fault {
        ScriptFault::Shape(path) | ScriptFault::Range(path) | ScriptFault::Limit(path) => path,
        ScriptFault::NotJson | ScriptFault::Memory => key_path(Key::Document),
    }
}

fn fault_lines(alloc: Global, source: Source<'_>, document: &Value, first: ScriptFault) -> Wording {
    let spans = spans_of(alloc, source.text)?;
    let mut lines = Lines::new(alloc);
    lines.add_fault(source, &spans, document, first)?;
    for fault in &faults_of(alloc, document)? {
        if *fault != first {
            lines.add_fault(source, &spans, document, *fault)?;
        }
    }
    let Lines { out, .. } = lines;
    Ok(out)
}

/// Returns the lines that report a script's faults, beginning with `first`.
pub(crate) fn faults_text(alloc: Global, source: Source<'_>, first: ScriptFault) -> Wording {
    match Value::from_slice(alloc, source.text) {
        Ok(document) => fault_lines(alloc, source, &document, first),
        Err(error) => {
            if error.is_memory() {
                return Err(AllocError);
            }
            no_json(alloc, source.name, source.text, &error)
        }
    }
}

// Returns the line of a request that fails in every run, with the position of its instruction.
fn warning_line(
    alloc: Global,
    source: Source<'_>,
    spans: &Spans,
    failure: &SureFailure,
) -> Wording {
    let name = source.name;
    let path = Path {
        key: Key::Threads,
        item: Some(failure.thread),
        inner: Some(failure.instruction),
    };
    let Position { line, column } = position_of(source.text, offset_of(source.text, spans, path));
    format!(in alloc; "{name}:{line}:{column}: warning: {failure}\n")
}

/// Returns a line for each request that fails in every run, at most 20.
pub(crate) fn warnings_text(alloc: Global, source: Source<'_>, setup: &Setup) -> Wording {
    let failures = sure_failures(alloc, setup)?;
    let mut out = String::new(alloc);
    if failures.is_empty() {
        return Ok(out);
    }
    let spans = spans_of(alloc, source.text)?;
    for failure in &failures {
        out.push_str(warning_line(alloc, source, &spans, failure)?.as_str())?;
    }
    Ok(out)
}

/// Returns the line of a sentence about an event of the schedule.
pub(crate) fn event_text(alloc: Global, source: Source<'_>, index: u32, sentence: &str) -> Wording {
    let spans = spans_of(alloc, source.text)?;
    let path = item_path(Key::Schedule, index);
    let offset = offset_of(source.text, &spans, path);
    let mut lines = Lines::new(alloc);
    lines.add(source, offset, path, sentence)?;
    let Lines { out, .. } = lines;
    Ok(out)
}
