//! How many children the containers of places have that are numbered.
ghost use Rattle.std.specs.Prelude.{◌≡◌, ◌↔◌, ◌≤◌, ◌<◌, IsTrue, length};
ghost use Rattle.dap_variables.specs.Children.{capacity_in, capacity_of, count_of, is_indexed, length_in, listed_count, place_in};

use crate::container::Container;
use machine::{Setup, State};
use places::{Contents, Listed, Place, Value};
use scenario::{completion_entries, ring_size};

/// The bytes of the memory, and the most bytes of a file.
const MOST_BYTES: u32 = 65536;

/// The most requests of a run, and the most overflowed completions.
const MOST_REQUESTS: u32 = 65536;

/// Returns whether the children of a container are places with numbers from 0 on.
pub fn is_indexed(container: Container) -> bool
    ensures { result ≡ is_indexed container }
{
    match container {
        Container::Requests
        | Container::Memory
        | Container::Array
        | Container::Entries
        | Container::Completions
        | Container::Backlog
        | Container::File(_)
        | Container::Durable(_)
        | Container::Pipe(_) => true,
        _ => false,
    }
}

/// Returns a child of a container whose children are numbered.
pub(crate) fn place_in(container: Container, index: u32) -> Place
    ensures { result ≡ place_in container index }
{
    match container {
        Container::Requests => Place::Request(index),
        Container::Array => Place::Array(index),
        Container::Entries => Place::Slot(index),
        Container::Completions => Place::Completion(index),
        Container::Backlog => Place::Backlog(index),
        Container::File(object) => Place::FileByte(object, index),
        Container::Durable(object) => Place::DurableByte(object, index),
        Container::Pipe(object) => Place::PipeByte(object, index),
        _ => Place::MemoryByte(index),
    }
}

// Returns the number that a value is, up to the most bytes of a file.
fn length_in(value: Option<Value>) -> u32
    ensures { result ≡ length_in value }
{
    match value {
        Some(Value::Number(number)) => number.min(u64::from(MOST_BYTES)) as u32,
        _ => 0,
    }
}

// Returns the capacity of a pipe, or 0 for any other object.
fn capacity_of(setup: &Setup, object: u32) -> u32
    ensures { result ≡ capacity_of setup.now object }
{
    match setup.objects.as_slice().get(object as usize) {
        Some(object) => capacity_in(&object.contents),
        None => 0,
    }
}

fn capacity_in(contents: &Contents) -> u32
    ensures { result ≡ capacity_in contents.now }
{
    match contents {
        Contents::Pipe(capacity) => *capacity,
        _ => 0,
    }
}

// Returns whether there is a request with a number.
fn has_request(state: &State, number: u32) -> bool
    ensures there { IsTrue result ↔ (number < length state.now.table) }
    ensures most { length state.now.table ≤ 65536 }
{
    state.row(number).is_some()
}

// Returns whether there is an overflowed completion with a number.
fn has_overflowed(state: &State, number: u32) -> bool
    ensures there { IsTrue result ↔ (number < length state.now.backlog.items) }
    ensures most { length state.now.backlog.items ≤ 65536 }
{
    state.value(Place::Backlog(number)).is_some()
}

// Returns whether a list has an element with a number.
fn has(state: &State, list: Listed, number: u32) -> bool
    ensures there { IsTrue result ↔ (number < listed_count state.now list) }
    ensures most { listed_count state.now list ≤ 65536 }
{
    match list {
        Listed::Requests => has_request(state, number),
        Listed::Overflowed => has_overflowed(state, number),
    }
}

// Returns how many elements a list has.
fn listed_count(state: &State, list: Listed) -> u32
    ensures { result ≡ listed_count state.now list }
{
    if !has(state, list, 0) {
        return 0;
    }
    let (mut low, mut high) = (1, MOST_REQUESTS);
    while low < high {
        let middle = low + (high - low) / 2;
        if has(state, list, middle) {
            low = middle + 1;
        } else {
            high = middle;
        }
    }
    low
}

/// Returns how many children a container has, if they are numbered, or else 0.
pub fn count_of(setup: &Setup, state: &State, container: Container) -> u32
    ensures { result ≡ count_of setup.now state.now container }
{
    match container {
        Container::Requests => listed_count(state, Listed::Requests),
        Container::Backlog => listed_count(state, Listed::Overflowed),
        Container::Memory => MOST_BYTES,
        Container::Array | Container::Entries => ring_size(setup.entries),
        Container::Completions => ring_size(completion_entries(setup.entries, setup.cq)),
        Container::File(object) => length_in(state.value(Place::FileLength(object))),
        Container::Durable(object) => length_in(state.value(Place::DurableLength(object))),
        Container::Pipe(object) => capacity_of(setup, object),
        _ => 0,
    }
}
