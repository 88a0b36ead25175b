//! Writes pictures as bytes.
use crate::drawn::Drawn;
use crate::page::{ACTIONS, BEFORE, MODEL, PICTURE};
use crate::parts::PagePart;
use crate::picture_parts::{page_part, trace_file};
use std::alloc::{AllocError, Global};

// Returns the data of a page as JSON. Only an allocation can fail.
fn json_of(alloc: Global, value: &PagePart<'_>) -> Result<Vec<u8>, AllocError> {
    match serde_json::to_vec(alloc, value) {
        Ok(json) => Ok(json),
        Err(_) => Err(AllocError),
    }
}

// Appends JSON to a page. A `<` occurs only in strings, and is escaped, so that no string ends the
// page's script.
fn put_json(out: &mut Vec<u8>, json: &[u8]) -> Result<(), AllocError> {
    for (i, part) in json.split(|byte| *byte == b'<').enumerate() {
        if i > 0 {
            out.extend_from_slice(b"\\u003c")?;
        }
        out.extend_from_slice(part)?;
    }
    Ok(())
}

fn put_texts(out: &mut Vec<u8>, texts: &[&str]) -> Result<(), AllocError> {
    for text in texts {
        out.extend_from_slice(text.as_bytes())?;
    }
    Ok(())
}

// Appends the page before the data. Each list of texts has its own function, which is proved
// faster.
fn put_before(out: &mut Vec<u8>) -> Result<(), AllocError> {
    put_texts(out, &BEFORE)
}

fn put_model(out: &mut Vec<u8>) -> Result<(), AllocError> {
    put_texts(out, &MODEL)
}

fn put_picture(out: &mut Vec<u8>) -> Result<(), AllocError> {
    put_texts(out, &PICTURE)
}

fn put_actions(out: &mut Vec<u8>) -> Result<(), AllocError> {
    put_texts(out, &ACTIONS)
}

// Appends the page after the data.
fn put_after(out: &mut Vec<u8>) -> Result<(), AllocError> {
    put_model(out)?;
    put_picture(out)?;
    put_actions(out)
}

// Returns a page with this data.
fn page_around(alloc: Global, json: &[u8]) -> Result<Vec<u8>, AllocError> {
    let mut out = Vec::new(alloc);
    put_before(&mut out)?;
    put_json(&mut out, json)?;
    put_after(&mut out)?;
    Ok(out)
}

/// Returns the page of a run.
pub(crate) fn page_bytes(alloc: Global, drawn: Drawn<'_>) -> Result<Vec<u8>, AllocError> {
    let part = page_part(alloc, drawn)?;
    let json = json_of(alloc, &part)?;
    page_around(alloc, &json)
}

/// Returns the trace events of a run.
pub(crate) fn trace_bytes(alloc: Global, drawn: Drawn<'_>) -> Result<Vec<u8>, AllocError> {
    trace_file(alloc, drawn)
}
