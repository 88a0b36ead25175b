//! Findings as a SARIF log (Static Analysis Results Interchange Format 2.1.0).

use crate::locating::{item_of, map_of};
use crate::naming::json_of;
use crate::subjects::subject_of;
use finding_kinds::Finding;
use percent_encoding::{AsciiSet, NON_ALPHANUMERIC, ascii_set, utf8_percent_encode};
use sentences::{Run, sentence};
use serde::Serialize;
use source_map::{Item, SourceMap};
use std::alloc::{AllocError, Global};

/// The log up to its first result, and after its last one.
pub(crate) const HEAD: &str =
    "{\"$schema\":\"https://json.schemastore.org/sarif-2.1.0.json\",\"version\":\"2.1.0\",\"runs\":[{\"tool\":{\"driver\":{\"name\":\"uringwalk\"}},\"columnKind\":\"utf16CodeUnits\",\"results\":[\n";

pub(crate) const TAIL: &str = "\n]}]}\n";

/// The bytes of a path that a URI escapes: all but its unreserved ones and the slash (RFC 3986).
const ESCAPED: AsciiSet = ascii_set!(
    NON_ALPHANUMERIC
        .remove(b'-')
        .remove(b'.')
        .remove(b'_')
        .remove(b'~')
        .remove(b'/')
);

/// A script with its URI, and where its items are.
#[derive(Drop)]
pub(crate) struct Source {
    uri: String,
    map: SourceMap,
}

#[derive(Clone, Copy, Serialize)]
struct Message<'a> {
    text: &'a str,
}

#[derive(Clone, Copy, Serialize)]
struct ArtifactLocation<'a> {
    uri: &'a str,
}

/// Lines and columns from 1. The last column is the one after the region.
#[derive(Clone, Copy, Serialize)]
#[serde(rename_all = "camelCase")]
struct Region {
    start_line: usize,
    start_column: usize,
    end_line: usize,
    end_column: usize,
}

#[derive(Clone, Copy, Serialize)]
#[serde(rename_all = "camelCase")]
struct PhysicalLocation<'a> {
    artifact_location: ArtifactLocation<'a>,
    region: Region,
}

#[derive(Clone, Copy, Serialize)]
#[serde(rename_all = "camelCase")]
struct Location<'a> {
    physical_location: PhysicalLocation<'a>,
}

/// A result of a SARIF log.
#[derive(Clone, Copy, Serialize)]
#[serde(rename_all = "camelCase")]
struct ResultObject<'a> {
    rule_id: &'a str,
    level: &'static str,
    message: Message<'a>,
    #[serde(skip_serializing_if = "has_none")]
    locations: &'a [Location<'a>],
}

fn has_none(locations: &&[Location<'_>]) -> bool {
    locations.is_empty()
}

// Returns the URI of a file.
fn uri_of(alloc: Global, path: &str) -> Result<String, AllocError> {
    let scheme = if path.starts_with('/') { "file://" } else { "" };
    let mut uri = String::from_str(alloc, scheme)?;
    utf8_percent_encode(path, ESCAPED).append_to(&mut uri)?;
    Ok(uri)
}

/// Returns the script in the file of a path, or `None` if its bytes aren't a script.
pub(crate) fn source_of(
    alloc: Global,
    path: &str,
    text: &[u8],
) -> Result<Option<Source>, AllocError> {
    let Some(map) = map_of(alloc, text)? else {
        return Ok(None);
    };
    let uri = uri_of(alloc, path)?;
    Ok(Some(Source { uri, map }))
}

fn region_of(item: Item) -> Region {
    let Item { start, end, .. } = item;
    Region {
        start_line: start.line,
        start_column: start.column,
        end_line: end.line,
        end_column: end.column,
    }
}

// Returns the location of a finding in a script.
fn location_of<'a>(
    source: Option<&'a Source>,
    run: &Run<'_>,
    finding: &Finding,
) -> Option<Location<'a>> {
    let source = source?;
    let item = item_of(&source.map, subject_of(run, finding))?;
    Some(Location {
        physical_location: PhysicalLocation {
            artifact_location: ArtifactLocation {
                uri: source.uri.as_str(),
            },
            region: region_of(item),
        },
    })
}

/// Appends a finding as a result on its own line, after a comma unless it is the first.
pub(crate) fn add_result(
    alloc: Global,
    out: &mut String,
    source: Option<&Source>,
    run: &Run<'_>,
    index: usize,
    finding: Finding,
) -> Result<(), AllocError> {
    let text = sentence(alloc, run, index)?;
    let location = location_of(source, run, &finding);
    let object = ResultObject {
        rule_id: finding.kind.word(),
        level: if finding.kind.is_fault() {
            "error"
        } else {
            "note"
        },
        message: Message {
            text: text.as_str(),
        },
        locations: location.as_slice(),
    };
    let comma = if out.len() == HEAD.len() { "" } else { ",\n" };
    out.push_str(comma)?;
    out.push_str(json_of(alloc, &object)?.as_str())
}
