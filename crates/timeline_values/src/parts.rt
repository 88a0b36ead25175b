//! The parts of a page's data that contain values, as JSON.

use serde::Serialize;

/// A change of a place, or of consecutive bytes: the place, its old value and its new one, as the
/// log prints them, but bytes in base64.
#[derive(Drop, Serialize)]
pub struct ChangePart(pub String, pub String, pub String);

/// A place and its value, as `show` prints them, or the place of the first byte of a region and its
/// bytes in base64.
#[derive(Drop, Serialize)]
pub struct ValuePart(pub String, pub String);
