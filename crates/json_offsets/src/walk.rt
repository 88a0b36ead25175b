//! Scans a list or an object in a JSON text byte by byte, to find where each part of it begins.
ghost use Rattle.std.specs.Prelude.{◌≤◌, length};

/// Whether a scan is inside a string.
#[derive(Clone, Copy)]
enum Within {
    /// Outside of strings.
    Plain,
    String,
    /// In a string, after a backslash.
    Escape,
}

/// What begins at a byte.
#[derive(Clone, Copy)]
pub(crate) enum Begins {
    Nothing,
    /// An item of a list, or a key or a value of an object.
    Part,
    /// The end of the list or the object.
    End,
}

/// A scan of a list or an object. It begins after the opening bracket.
#[derive(Clone, Copy)]
pub(crate) struct Walk {
    /// How many nested lists and objects are open.
    depth: usize,
    within: Within,
    /// Whether the current part has begun.
    begun: bool,
}

impl Walk {
    pub fn new() -> Walk {
        Walk {
            depth: 0,
            within: Within::Plain,
            begun: false,
        }
    }

    // Reads a byte within a part.
    fn read_inside(&mut self, byte: u8) {
        match (self.within, byte) {
            (Within::Escape, _) => self.within = Within::String,
            (Within::String, b'\\') => self.within = Within::Escape,
            (Within::String, b'"') => self.within = Within::Plain,
            (Within::String, _) => {}
            (Within::Plain, b'"') => self.within = Within::String,
            (Within::Plain, b'[' | b'{') => self.depth = self.depth.saturating_add(1),
            (Within::Plain, b']' | b'}') => self.depth = self.depth.saturating_sub(1),
            (Within::Plain, _) => {}
        }
    }

    // Reads a byte outside of strings and of nested lists and objects.
    fn read_outside(&mut self, byte: u8) -> Begins {
        match byte {
            b' ' | b'\t' | b'\r' | b'\n' => Begins::Nothing,
            b',' | b':' => {
                self.begun = false;
                Begins::Nothing
            }
            b']' | b'}' => Begins::End,
            _ => {
                self.read_inside(byte);
                let first = !self.begun;
                self.begun = true;
                if first { Begins::Part } else { Begins::Nothing }
            }
        }
    }

    /// Reads the next byte, and returns what begins at it.
    pub fn read(&mut self, byte: u8) -> Begins {
        if self.depth == 0 && matches!(self.within, Within::Plain) {
            return self.read_outside(byte);
        }
        self.read_inside(byte);
        Begins::Nothing
    }
}

/// Returns the length of the string at the start of some bytes, with both quotes. Returns the
/// number of bytes if the string has no end.
pub fn string_length(bytes: &[u8]) -> usize
    ensures { result ≤ length bytes.now }
{
    let mut walk = Walk::new();
    for (i, byte) in bytes.iter().enumerate() {
        walk.read_inside(*byte);
        if matches!(walk.within, Within::Plain) {
            return i + 1;
        }
    }
    bytes.len()
}
