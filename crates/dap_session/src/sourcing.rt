//! The requests about sources, lines, addresses and bytes.
ghost use Rattle.std.specs.Prelude.{◌≡◌};
ghost use Rattle.inverse_log.specs.Walks.{ending};
ghost use Rattle.dap_session.specs.Runs.{walk_of};

use crate::addresses::address_of;
use crate::debuggee::Debuggee;
use crate::lines::{Located, MOST_LINES, Wish};
use crate::members::{Members, object_of};
use crate::verdicts::add_range;
use base64::engine::general_purpose::STANDARD;
use dap_answers::{Reason, Refusal, Reply};
use dap_messages::{
    BreakpointLocationsArguments, DisassembleArguments, GotoTargetsArguments, ReadMemoryArguments,
};
use dap_views::place_named;
use machine::State;
use places::{Place, Value as PlaceValue};
use script::EventText;
use serde_json::Value;
use std::alloc::AllocError;
use stops::{Site, moments_before};

/// How many instructions, targets or bytes a response has at most.
const MOST: usize = 4096;

const MOST_BYTES: usize = 65536;

/// The number of a trace's source.
pub(crate) const TRACE_SOURCE: u64 = 1;

// Returns the last part of a path.
fn name_in(path: &str) -> &str {
    match path.rsplit_once('/') {
        Some((_, name)) => name,
        None => path,
    }
}

// Returns the byte of a kind of place that is some bytes further.
fn further(place: Place, by: u32) -> Option<Place> {
    Some(match place {
        Place::MemoryByte(index) => Place::MemoryByte(index.checked_add(by)?),
        Place::FileByte(object, index) => Place::FileByte(object, index.checked_add(by)?),
        Place::DurableByte(object, index) => Place::DurableByte(object, index.checked_add(by)?),
        Place::PipeByte(object, index) => Place::PipeByte(object, index.checked_add(by)?),
        _ => return None,
    })
}

// Returns a place with a byte at an index.
fn byte_place(place: Place, index: i64) -> Option<Place> {
    let Ok(index) = u32::try_from(index) else {
        return None;
    };
    Some(match place {
        Place::MemoryByte(_) => Place::MemoryByte(index),
        Place::FileByte(object, _) => Place::FileByte(object, index),
        Place::DurableByte(object, _) => Place::DurableByte(object, index),
        Place::PipeByte(object, _) => Place::PipeByte(object, index),
        _ => return None,
    })
}

// Returns the index of a byte, if the place is one.
fn byte_index(place: Place) -> Option<i64> {
    match place {
        Place::MemoryByte(index)
        | Place::FileByte(_, index)
        | Place::DurableByte(_, index)
        | Place::PipeByte(_, index) => Some(i64::from(index)),
        _ => None,
    }
}

impl Debuggee {
    // Returns the source of the run.
    pub(crate) fn source_value(&self) -> Result<Value, AllocError> {
        let mut members = Members::new(self.alloc);
        let path = self.path.as_str();
        members.text("name", name_in(path))?;
        if self.map.is_some() {
            members.text("path", path)?;
        } else {
            members.number("sourceReference", TRACE_SOURCE)?;
        }
        Ok(members.finish())
    }

    // Returns whether the run has a source. A long trace has none.
    pub(crate) fn has_source(&self) -> bool {
        self.map.is_some() || self.walker().len() <= MOST_LINES
    }

    pub(crate) fn loaded_sources(&self) -> Result<Reply, Refusal> {
        let mut sources = Vec::new(self.alloc);
        if self.has_source() {
            sources.push(self.source_value()?)?;
        }
        Ok(Reply::of(Some(object_of(self.alloc, "sources", sources)?)))
    }

    // Returns a line for each event.
    fn event_lines(&self) -> Result<String, AllocError> {
        let mut text = String::new(self.alloc);
        for event in self.walker().events() {
            let line = format!(in self.alloc; "{}\n", EventText(*event))?;
            text.push_str(line.as_str())?;
        }
        Ok(text)
    }

    /// Returns the text of a trace's source.
    pub(crate) fn source(&self, reference: u64) -> Result<Reply, Refusal> {
        if reference != TRACE_SOURCE || self.map.is_some() || !self.has_source() {
            return Err(Refusal::Reason(Reason::NoSource));
        }
        let mut members = Members::new(self.alloc);
        members.text("content", self.event_lines()?.as_str())?;
        members.text("mimeType", "text/plain")?;
        Ok(Reply::of(Some(members.finish())))
    }

    // Returns the position of an item.
    fn location(&self, located: Located) -> Result<Value, AllocError> {
        let mut members = Members::new(self.alloc);
        add_range(&mut members, self.base, located)?;
        Ok(members.finish())
    }

    pub(crate) fn breakpoint_locations(
        &self,
        arguments: &BreakpointLocationsArguments,
    ) -> Result<Reply, Refusal> {
        let mut locations = Vec::new(self.alloc);
        if self.is_source(&arguments.source) {
            let first = self.base.wish(arguments.line, arguments.column);
            let last = self.base.wish(
                arguments.end_line.unwrap_or(arguments.line),
                arguments.end_column,
            );
            for located in &self.lines().between(self.alloc, first, last)? {
                locations.push(self.location(*located)?)?;
            }
        }
        Ok(Reply::of(Some(object_of(self.alloc, "breakpoints", locations)?)))
    }

    // Returns a target: a moment at which an item is next.
    fn goto_target(&self, moment: usize, located: Located) -> Result<Value, AllocError> {
        let label = format!(in self.alloc; "moment {moment}")?;
        let mut members = Members::new(self.alloc);
        members.number("id", moment as u64)?;
        members.text("label", label.as_str())?;
        add_range(&mut members, self.base, located)?;
        Ok(members.finish())
    }

    // Returns what a target may be on: all that starts on a line, or what fits a column of it.
    fn items_at(&self, wish: Wish) -> Result<Vec<Located>, AllocError> {
        let mut items = match wish.column {
            None => self.lines().between(self.alloc, wish, wish)?,
            Some(_) => Vec::new(self.alloc),
        };
        if items.is_empty() {
            if let Some(located) = self.lines().find(wish) {
                items.push(located)?;
            }
        }
        Ok(items)
    }

    // Adds a target for each moment at which an item is next, less those that are targets already.
    fn add_targets(
        &self,
        targets: &mut Vec<Value>,
        offered: &mut Vec<usize>,
        end: &State,
        located: Located,
    ) -> Result<(), AllocError>
        requires { end.now ≡ ending (walk_of self.now) }
    {
        for moment in &moments_before(self.alloc, self.walker(), end, located.site)? {
            if targets.len() < MOST && !offered.iter().any(|other| *other == *moment) {
                targets.push(self.goto_target(*moment, located)?)?;
                offered.push(*moment)?;
            }
        }
        Ok(())
    }

    // Returns a target for each moment at which one of some items is next.
    fn targets_on(&self, items: &[Located]) -> Result<Vec<Value>, AllocError> {
        let end = self.walker().last_state()?;
        let mut targets = Vec::new(self.alloc);
        let mut offered = Vec::new(self.alloc);
        for located in items {
            if targets.len() < MOST {
                self.add_targets(&mut targets, &mut offered, &end, *located)?;
            }
        }
        Ok(targets)
    }

    pub(crate) fn goto_targets(&self, arguments: &GotoTargetsArguments) -> Result<Reply, Refusal> {
        if !self.is_source(&arguments.source) {
            return Err(Refusal::Reason(Reason::NoSource));
        }
        let items = self.items_at(self.base.wish(arguments.line, arguments.column))?;
        let targets = self.targets_on(&items)?;
        Ok(Reply::of(Some(object_of(self.alloc, "targets", targets)?)))
    }

    // Returns where the event after a moment is in the source.
    fn event_location(&self, moment: usize) -> Option<Located> {
        match &self.map {
            Some(map) => {
                let item = map.event(moment)?;
                Some(Located {
                    site: Site::Event(moment),
                    start: item.start,
                    end: item.end,
                })
            }
            None => None,
        }
    }

    // Returns the event after a moment, or that there is none.
    fn disassembled(&self, address: i64) -> Result<Value, AllocError> {
        let mut members = Members::new(self.alloc);
        let text = format!(in self.alloc; "{address}")?;
        members.text("address", text.as_str())?;
        let Ok(moment) = usize::try_from(address) else {
            members.text("instruction", "no event")?;
            return Ok(members.finish());
        };
        let Some(event) = self.walker().events().get(moment) else {
            members.text("instruction", "no event")?;
            return Ok(members.finish());
        };
        let name = format!(in self.alloc; "{}", EventText(*event))?;
        members.text("instruction", name.as_str())?;
        if let Some(located) = self.event_location(moment) {
            members.add("location", self.source_value()?)?;
            add_range(&mut members, self.base, located)?;
        }
        Ok(members.finish())
    }

    pub(crate) fn disassemble(&self, arguments: &DisassembleArguments) -> Result<Reply, Refusal> {
        let Some(reference) = address_of(arguments.reference.as_str()) else {
            return Err(Refusal::Reason(Reason::NoAddress));
        };
        if arguments.instruction_count > MOST as u64 {
            return Err(Refusal::Reason(Reason::TooMany));
        }
        let mut address = reference
            .saturating_add(arguments.offset)
            .saturating_add(arguments.instruction_offset);
        let mut instructions = Vec::new(self.alloc);
        for _ in 0..arguments.instruction_count {
            instructions.push(self.disassembled(address)?)?;
            address = address.saturating_add(1);
        }
        Ok(Reply::of(Some(object_of(self.alloc, "instructions", instructions)?)))
    }

    // Returns the bytes from a place on, at most `count` of them.
    fn bytes_from(&self, place: Place, count: usize) -> Result<Vec<u8>, AllocError> {
        let state = self.walker().state();
        let mut bytes = Vec::new(self.alloc);
        let mut next = Some(place);
        for _ in 0..count {
            let Some(place) = next else {
                return Ok(bytes);
            };
            let Some(PlaceValue::Byte(byte)) = state.value(place) else {
                return Ok(bytes);
            };
            bytes.push(byte)?;
            next = further(place, 1);
        }
        Ok(bytes)
    }

    pub(crate) fn read_memory(&self, arguments: &ReadMemoryArguments) -> Result<Reply, Refusal> {
        let words = arguments.reference.as_str();
        let Some(place) = place_named(self.alloc, self.walker().setup(), words)? else {
            return Err(Refusal::Reason(Reason::NoAddress));
        };
        let Some(index) = byte_index(place) else {
            return Err(Refusal::Reason(Reason::NoAddress));
        };
        let first = index.saturating_add(arguments.offset);
        let count = if arguments.count < MOST_BYTES as u64 {
            arguments.count as usize
        } else {
            MOST_BYTES
        };
        let bytes = match byte_place(place, first) {
            Some(place) => self.bytes_from(place, count)?,
            None => Vec::new(self.alloc),
        };
        let address = format!(in self.alloc; "{first}")?;
        let data = STANDARD.encode(self.alloc, bytes.as_slice())?;
        let mut members = Members::new(self.alloc);
        members.text("address", address.as_str())?;
        members.text("data", data.as_str())?;
        let unread = arguments.count.saturating_sub(bytes.len() as u64);
        members.number("unreadableBytes", unread)?;
        Ok(Reply::of(Some(members.finish())))
    }
}
