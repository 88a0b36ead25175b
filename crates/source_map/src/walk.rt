//! Splits a JSON text into its values, byte by byte. It expects a valid text.
ghost use Rattle.std.specs.Prelude.{◌≤◌, length};

use crate::span::Span;

/// The number of levels whose values have a range: the document, its members, their items, and
/// the items of those.
const LEVELS: usize = 4;

/// Where a walk is.
#[derive(Clone, Copy)]
enum Within {
    /// Outside of strings, numbers and words.
    Plain,
    /// In a number or a word.
    Scalar,
    String,
    /// In a string, after a backslash.
    Escape,
}

/// What ends at a byte.
#[derive(Clone, Copy)]
pub(crate) enum Ended {
    Key(Span),
    /// The value of a member of the document.
    Value(Span),
    /// An item of a member's list.
    Item(Span),
    /// An item of such an item.
    Inner(Span),
}

/// A walk over a text.
#[derive(Clone, Copy)]
pub(crate) struct Walk {
    within: Within,
    /// The number of lists and objects that are open.
    depth: usize,
    /// The offset at which the last value of each level began.
    starts: [usize; LEVELS],
    /// Whether a member's key is read, and not its value yet.
    is_after_key: bool,
}

// Returns whether a byte ends a number or a word.
fn ends_scalar(byte: u8) -> bool {
    matches!(byte, b' ' | b'\t' | b'\r' | b'\n' | b',' | b']' | b'}')
}

impl Walk {
    pub fn new() -> Walk {
        Walk {
            within: Within::Plain,
            depth: 0,
            starts: [0; LEVELS],
            is_after_key: false,
        }
    }

    fn begin(&mut self, at: usize) {
        if self.depth < LEVELS {
            self.starts[self.depth] = at;
        }
    }

    // Ends the current value before an offset.
    fn end(&mut self, end: usize) -> Option<Ended> {
        self.within = Within::Plain;
        if self.depth >= LEVELS {
            return None;
        }
        let start = self.starts[self.depth];
        let span = Span { start, end };
        match self.depth {
            1 => Some(if self.is_after_key {
                Ended::Value(span)
            } else {
                Ended::Key(span)
            }),
            2 => Some(Ended::Item(span)),
            3 => Some(Ended::Inner(span)),
            _ => None,
        }
    }

    fn set_after_key(&mut self, is_after_key: bool) {
        if self.depth == 1 {
            self.is_after_key = is_after_key;
        }
    }

    // Reads a byte outside of strings, numbers and words.
    fn read_plain(&mut self, at: usize, byte: u8) -> Option<Ended> {
        match byte {
            b' ' | b'\t' | b'\r' | b'\n' => {}
            b',' => self.set_after_key(false),
            b':' => self.set_after_key(true),
            b'[' | b'{' => {
                self.begin(at);
                self.depth = self.depth.saturating_add(1);
            }
            b']' | b'}' => {
                self.depth = self.depth.saturating_sub(1);
                return self.end(at.saturating_add(1));
            }
            b'"' => {
                self.begin(at);
                self.within = Within::String;
            }
            _ => {
                self.begin(at);
                self.within = Within::Scalar;
            }
        }
        None
    }

    /// Returns the offset of the next byte that has to be read, from an offset on. White space and
    /// what is within a string, a number or a word are passed over.
    pub fn next(&self, text: &[u8], from: usize) -> usize
        requires { from ≤ length text.now }
        ensures from { from ≤ result }
        ensures within { result ≤ length text.now }
    {
        let mut bytes = text[from..].iter();
        let skipped = match self.within {
            Within::Plain => bytes.position(|byte| !matches!(*byte, b' ' | b'\n')),
            Within::Scalar => bytes.position(|byte| ends_scalar(*byte)),
            Within::String => bytes.position(|byte| matches!(*byte, b'"' | b'\\')),
            Within::Escape => Some(0),
        };
        match skipped {
            Some(skipped) => from + skipped,
            None => text.len(),
        }
    }

    /// Returns what ends before a byte. Only a number or a word does.
    pub fn read_end(&mut self, at: usize, byte: u8) -> Option<Ended> {
        if matches!(self.within, Within::Scalar) && ends_scalar(byte) {
            return self.end(at);
        }
        None
    }

    /// Reads the byte at an offset, and returns what ends with it.
    pub fn read(&mut self, at: usize, byte: u8) -> Option<Ended> {
        match (self.within, byte) {
            (Within::Plain, _) => return self.read_plain(at, byte),
            (Within::Scalar, _) => {}
            (Within::Escape, _) => self.within = Within::String,
            (Within::String, b'\\') => self.within = Within::Escape,
            (Within::String, b'"') => return self.end(at.saturating_add(1)),
            (Within::String, _) => {}
        }
        None
    }
}
