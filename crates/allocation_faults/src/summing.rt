//! Checksums of everything that a call can change. Only those of events allocate, for their texts.

use entries::{Phase, Row};
use machine::{Event, Setup, State};
use places::{Change, Place, Record, Region, Stage, Value};
use script::EventText;
use state_places::{
    PARTS, REQUESTS, SLOTS, lone_places, places_of_part, places_of_request, places_of_slot,
};
use std::alloc::{AllocError, Global};
use std::fmt;

/// The offset basis and the prime of 64-bit FNV-1a.
const BEGIN: u64 = 14695981039346656037;

const PRIME: u64 = 1099511628211;

/// An FNV-1a checksum, and the number of values in it. Numbers have eight bytes, little-endian.
/// Bytes of variable length come after their length.
#[derive(Clone, Copy)]
pub struct Sum {
    pub values: usize,
    hash: u64,
}

impl fmt::Display for Sum {
    fn fmt<W: fmt::Write>(&self, f: &mut fmt::Formatter<W>) -> fmt::Result {
        let (hash, values) = (self.hash, self.values);
        write!(f, "{hash:016x} of {values}")
    }
}

impl Sum {
    /// Returns the checksum of nothing.
    pub fn new() -> Sum {
        Sum {
            values: 0,
            hash: BEGIN,
        }
    }

    fn add(&mut self, bytes: &[u8]) {
        for byte in bytes {
            self.hash = (self.hash ^ u64::from(*byte)).wrapping_mul(PRIME);
        }
    }

    pub fn add_numbers(&mut self, numbers: &[u64]) {
        for number in numbers {
            self.add(&number.to_le_bytes());
        }
    }

    pub fn add_bytes(&mut self, bytes: &[u8]) {
        self.values = self.values.saturating_add(1);
        self.add_numbers(&[bytes.len() as u64]);
        self.add(bytes);
    }

    /// Adds the number of events, and their texts.
    pub fn add_events(&mut self, alloc: Global, events: &[Event]) -> Result<(), AllocError> {
        self.add_numbers(&[events.len() as u64]);
        for event in events {
            let text = EventText(*event).to_string(alloc)?;
            self.add_bytes(text.as_bytes());
        }
        Ok(())
    }

    /// Returns the checksum of a state: of each place that has a value, and of the value. A place
    /// consists of its kind and two numbers.
    pub fn from_state(setup: &Setup, state: &State) -> Sum {
        let mut sum = Sum::new();
        sum.add_places(state, &lone_places());
        for i in 0..PARTS {
            sum.add_places(state, &places_of_part(i));
        }
        for i in 0..SLOTS {
            sum.add_places(state, &places_of_slot(i));
        }
        for i in 0..REQUESTS {
            sum.add_places(state, &places_of_request(i));
        }
        sum.add_region(state, Region::Memory);
        for object in 0..setup.objects.len().min(32) as u32 {
            sum.add_region(state, Region::File(object));
            sum.add_region(state, Region::Durable(object));
            sum.add_region(state, Region::Pipe(object));
        }
        sum
    }

    fn add_region(&mut self, state: &State, region: Region) {
        for i in 0..REQUESTS {
            self.add_places(state, &[region.place(i)]);
        }
    }

    fn add_places(&mut self, state: &State, places: &[Place]) {
        for place in places {
            let old = state.value(*place);
            if old.is_some() {
                self.add_change(&Change { place: *place, old });
            }
        }
    }

    /// Returns the checksum of an undo record: of its places and their old values. It begins with
    /// an empty byte string, to differ from no record. An absent value adds 0, which is no value's
    /// kind.
    pub fn of_record(record: &Record) -> Sum {
        let mut sum = Sum::new();
        sum.add_bytes(&[]);
        let mut changes = record.changes();
        for _change in 0..u32::MAX {
            match changes.next() {
                Some(change) => sum.add_change(&change),
                None => return sum,
            }
        }
        sum
    }

    fn add_change(&mut self, change: &Change) {
        let Change { place, old } = change;
        self.values = self.values.saturating_add(1);
        self.add_numbers(&[
            u64::from(place.kind()),
            u64::from(place.index()),
            u64::from(place.second()),
        ]);
        match old {
            Some(value) => self.add_value(value),
            None => self.add_numbers(&[0]),
        }
    }

    // Adds the value's kind, and then the value.
    fn add_value(&mut self, value: &Value) {
        match value {
            Value::Number(number) => self.add_numbers(&[1, *number]),
            Value::Signed(number) => self.add_numbers(&[2, number.cast_unsigned()]),
            Value::Byte(byte) => self.add_numbers(&[3, u64::from(*byte)]),
            Value::Awake(is_awake) => self.add_numbers(&[4, u64::from(*is_awake)]),
            Value::Staged(Stage::Ready) => self.add_numbers(&[5]),
            Value::Staged(Stage::Waiting(submitted, needed)) => {
                self.add_numbers(&[6, u64::from(*submitted), u64::from(*needed)]);
            }
            Value::Reaped(None) => self.add_numbers(&[7]),
            Value::Reaped(Some(completion)) => self.add_kind(8, &completion.write()),
            Value::Completed(completion) => self.add_kind(9, &completion.write()),
            Value::Entry(entry) => self.add_kind(10, &entry.write()),
            Value::Requested(row) => self.add_row(row),
        }
    }

    fn add_kind(&mut self, kind: u64, bytes: &[u8]) {
        self.add_numbers(&[kind]);
        self.add(bytes);
    }

    fn add_row(&mut self, row: &Row) {
        self.add_kind(11, &row.entry.write());
        let (phase, result) = match row.phase {
            Phase::Queued => (0, 0),
            Phase::Issued => (1, 0),
            Phase::Ended(result) => (2, result),
        };
        self.add_numbers(&[phase, u64::from(result.cast_unsigned())]);
        self.add_numbers(&[u64::from(row.base), u64::from(row.unit)]);
        self.add_option(row.deadline);
        self.add_option(row.time);
        self.add_option(row.target.map(u128::from));
        self.add_option(row.held.map(u128::from));
    }

    fn add_option(&mut self, number: Option<u128>) {
        match number {
            Some(number) => self.add_kind(1, &number.to_le_bytes()),
            None => self.add_numbers(&[0]),
        }
    }
}
