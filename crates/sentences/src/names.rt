//! The names of rows and results in sentences.

use crate::opcode_names::OpcodeName;
use entries::Row;
use std::fmt;

/// The name of a row: its number, its operation and its user_data.
#[derive(Clone, Copy)]
pub struct RowName {
    number: u32,
    opcode: u8,
    user_data: u64,
}

impl RowName {
    /// Returns the name of a row with this number.
    pub fn new(number: u32, row: &Row) -> RowName {
        RowName {
            number,
            opcode: row.entry.opcode,
            user_data: row.entry.user_data,
        }
    }
}

impl fmt::Display for RowName {
    fn fmt<W: fmt::Write>(&self, f: &mut fmt::Formatter<W>) -> fmt::Result {
        let (number, user_data) = (self.number, self.user_data);
        let operation = OpcodeName(self.opcode);
        write!(f, "{number} ({operation}, user_data {user_data})")
    }
}

/// A result, with its name if it is an error (errno(3)).
#[derive(Clone, Copy)]
pub struct ResultName(pub i32);

fn error_word(errno: u32) -> &'static str {
    match errno {
        2 => " (ENOENT)",
        5 => " (EIO)",
        9 => " (EBADF)",
        14 => " (EFAULT)",
        16 => " (EBUSY)",
        22 => " (EINVAL)",
        27 => " (EFBIG)",
        32 => " (EPIPE)",
        62 => " (ETIME)",
        114 => " (EALREADY)",
        125 => " (ECANCELED)",
        _ => "",
    }
}

impl fmt::Display for ResultName {
    fn fmt<W: fmt::Write>(&self, f: &mut fmt::Formatter<W>) -> fmt::Result {
        let ResultName(res) = self;
        let word = if *res < 0 {
            error_word(res.unsigned_abs())
        } else {
            ""
        };
        write!(f, "{res}{word}")
    }
}
