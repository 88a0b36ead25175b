//! Sums over the undo records of a run.

use inverse_log::Walker;
use machine::State;
use places::value::is_same;
use places::{Record, Value};

/// The maximum number of a record's changes that are counted.
const MOST_CHANGES: u32 = 1048576;

/// Sums over undo records.
#[derive(Clone, Copy, Default)]
pub struct Figures {
    pub places: usize,
    /// Places whose old value is a byte.
    pub bytes: usize,
    /// Places whose old value differs from the current one.
    pub changed: usize,
    /// The memory of the records, including the records themselves, in bytes.
    pub kept: usize,
}

impl Figures {
    /// Sums up the records from index `from` on, and compares their old values with the walker's
    /// state.
    pub fn new(walker: &Walker, from: usize) -> Figures {
        let mut figures = Figures::default();
        for record in walker.records().iter().skip(from) {
            figures.add(record, walker.state());
        }
        figures
    }

    fn add(&mut self, record: &Record, state: &State) {
        self.kept = self.kept.saturating_add(record.kept_bytes());
        let mut changes = record.changes();
        for _change in 0..MOST_CHANGES {
            let Some(change) = changes.next() else {
                return;
            };
            self.places = self.places.saturating_add(1);
            if matches!(change.old, Some(Value::Byte(_))) {
                self.bytes = self.bytes.saturating_add(1);
            }
            if !is_same(state.value(change.place), change.old) {
                self.changed = self.changed.saturating_add(1);
            }
        }
    }
}
