//! How an editor counts lines and columns.

use crate::lines::Wish;
use dap_messages::InitializeArguments;

/// What the editor says about its lines and columns.
#[derive(Clone, Copy)]
pub(crate) struct Base {
    pub(crate) client: InitializeArguments,
}

// Returns a number that counts from 1 as the editor counts it.
fn shown(number: usize, from_1: bool) -> u64 {
    if from_1 {
        number as u64
    } else {
        number.saturating_sub(1) as u64
    }
}

// Returns a number that the editor gives, counted from 1.
fn read(number: u64, from_1: bool) -> usize {
    if from_1 {
        number as usize
    } else {
        number.saturating_add(1) as usize
    }
}

impl Base {
    pub(crate) fn line(self, line: usize) -> u64 {
        shown(line, self.client.lines_start_at_1)
    }

    pub(crate) fn column(self, column: usize) -> u64 {
        shown(column, self.client.columns_start_at_1)
    }

    /// Returns a column that the editor gives, counted from 1.
    pub(crate) fn read_column(self, column: u64) -> usize {
        read(column, self.client.columns_start_at_1)
    }

    /// Returns a line, and a column of it, as the editor gives them.
    pub(crate) fn wish(self, line: u64, column: Option<u64>) -> Wish {
        Wish {
            line: read(line, self.client.lines_start_at_1),
            column: match column {
                Some(column) => Some(self.read_column(column)),
                None => None,
            },
        }
    }
}
