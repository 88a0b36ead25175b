//! The children of containers other than changes and findings.
ghost use Rattle.std.specs.Prelude.{◌≡◌, ◌-◌, ◌++◌, ◌≤◌, IfOk, OnOk, map, min};
ghost use Rattle.machine.specs.Whole.{view};
ghost use Rattle.dap_variables.specs.Children.{contents_children, descriptor_children, descriptor_list, if_present, named_children, numbered_children, object_children, object_list, of_places, ring_children, thread_places};
ghost use Rattle.dap_variables.specs.Requests.{fields};
ghost use Rattle.dap_variables.specs.declared.children.Child.TheVariants as child;

use crate::container::Container;
use crate::counts::place_in;
use crate::requests::RequestField;
use machine::{Setup, State};
use places::{Contents, Place};
use std::alloc::{AllocError, Global};
use stops::EditorThread;

/// The number of the first descriptor (stdin(3)).
pub const FIRST_DESCRIPTOR: u32 = 3;

/// The most objects and the most descriptors of a setup.
const MOST_OBJECTS: u32 = 32;

const MOST_DESCRIPTORS: u32 = 64;

/// A child of a container.
#[derive(Clone, Copy)]
pub enum Child {
    /// The value of a place.
    Place(Place),
    /// A container within the container.
    Nested(Container),
    /// A field of a request.
    Field(u32, RequestField),
}

fn of_thread(alloc: Global, thread: EditorThread) -> Result<Vec<Child>, AllocError>
    ensures { IfOk result (λ list. list.items ≡ of_places (thread_places thread)) }
{
    match thread {
        EditorThread::Thread(number) => Vec::from_slice(
            alloc,
            &[
                Child::Place(Place::ProgramCounter(number)),
                Child::Place(Place::ThreadStage(number)),
                Child::Place(Place::Last(number)),
                Child::Place(Place::Got(number)),
            ],
        ),
        EditorThread::Poller => Vec::from_slice(alloc, &[Child::Place(Place::PollerStage)]),
        EditorThread::Run | EditorThread::Kernel => Vec::from_slice(
            alloc,
            &[Child::Place(Place::Clock), Child::Place(Place::Counted)],
        ),
    }
}

fn of_rings(alloc: Global) -> Result<Vec<Child>, AllocError>
    ensures { IfOk result (λ list. list.items ≡ ring_children) }
{
    let children = [
        Child::Place(Place::SubmissionHead),
        Child::Place(Place::SubmissionTail),
        Child::Place(Place::SubmissionFlags),
        Child::Place(Place::SubmissionDropped),
        Child::Place(Place::CompletionHead),
        Child::Place(Place::CompletionTail),
        Child::Place(Place::BacklogFront),
        Child::Nested(Container::Array),
        Child::Nested(Container::Entries),
        Child::Nested(Container::Completions),
        Child::Nested(Container::Backlog),
    ];
    Vec::from_slice(alloc, &children)
}

fn count_to(count: usize, most: u32) -> u32
    ensures value { result ≡ min count most }
    ensures most { result ≤ most }
{
    count.min(most as usize) as u32
}

fn of_objects(alloc: Global, setup: &Setup) -> Result<Vec<Child>, AllocError>
    ensures { IfOk result (λ list. list.items ≡ object_list setup.now) }
{
    let mut list = Vec::new(alloc);
    for number in 0..count_to(setup.objects.len(), MOST_OBJECTS) {
        list.push(Child::Nested(Container::Object(number)))?;
    }
    Ok(list)
}

fn of_descriptors(alloc: Global, setup: &Setup) -> Result<Vec<Child>, AllocError>
    ensures { IfOk result (λ list. list.items ≡ descriptor_list setup.now) }
{
    let mut list = Vec::new(alloc);
    for number in 0..count_to(setup.fds.len(), MOST_DESCRIPTORS) {
        let descriptor = FIRST_DESCRIPTOR + number;
        list.push(Child::Nested(Container::Descriptor(descriptor)))?;
    }
    Ok(list)
}

fn of_world(alloc: Global, setup: &Setup) -> Result<Vec<Child>, AllocError>
    ensures { IfOk result (λ list. list.items
        ≡ object_list setup.now ++ descriptor_list setup.now) }
{
    let mut list = of_objects(alloc, setup)?;
    let descriptors = of_descriptors(alloc, setup)?;
    list.extend_from_slice(&descriptors)?;
    Ok(list)
}

fn of_request(alloc: Global, number: u32) -> Result<Vec<Child>, AllocError>
    ensures { IfOk result (λ list. list.items ≡ map (child.Field number) fields) }
{
    let children = [
        Child::Field(number, RequestField::Opcode),
        Child::Field(number, RequestField::Flags),
        Child::Field(number, RequestField::Descriptor),
        Child::Field(number, RequestField::Offset),
        Child::Field(number, RequestField::Address),
        Child::Field(number, RequestField::Length),
        Child::Field(number, RequestField::OperationFlags),
        Child::Field(number, RequestField::UserData),
        Child::Field(number, RequestField::Chain),
        Child::Field(number, RequestField::Phase),
    ];
    Vec::from_slice(alloc, &children)
}

fn of_contents(alloc: Global, number: u32, contents: &Contents) -> Result<Vec<Child>, AllocError>
    ensures { IfOk result (λ list. list.items ≡ contents_children number contents.now) }
{
    match contents {
        Contents::File(_) => Vec::from_slice(
            alloc,
            &[
                Child::Place(Place::FileLength(number)),
                Child::Place(Place::DurableLength(number)),
                Child::Nested(Container::File(number)),
                Child::Nested(Container::Durable(number)),
            ],
        ),
        Contents::Pipe(_) => Vec::from_slice(
            alloc,
            &[
                Child::Place(Place::PutCount(number)),
                Child::Place(Place::TakenCount(number)),
                Child::Nested(Container::Pipe(number)),
            ],
        ),
        Contents::EventFd(_) => {
            Vec::from_slice(alloc, &[Child::Place(Place::EventCount(number))])
        }
    }
}

fn of_object(alloc: Global, setup: &Setup, number: u32) -> Result<Vec<Child>, AllocError>
    ensures { IfOk result (λ list. list.items ≡ object_children setup.now number) }
{
    match setup.objects.as_slice().get(number as usize) {
        Some(object) => of_contents(alloc, number, &object.contents),
        None => Ok(Vec::new(alloc)),
    }
}

// Adds a place if it is there.
fn add_present(list: &mut Vec<Child>, state: &State, place: Place) -> Result<(), AllocError>
    ensures { OnOk result (list.new.items ≡ list.old.items ++ if_present (view state.now) place) }
{
    if state.value(place).is_some() {
        list.push(Child::Place(place))?;
    }
    Ok(())
}

// A descriptor of a file has a position.
fn of_descriptor(alloc: Global, state: &State, number: u32) -> Result<Vec<Child>, AllocError>
    ensures { IfOk result (λ list. list.items ≡ descriptor_children (view state.now) number) }
{
    let mut list = Vec::new(alloc);
    add_present(&mut list, state, Place::OpenMark(number))?;
    add_present(&mut list, state, Place::Position(number))?;
    Ok(list)
}

/// Returns the children of a container whose children have names.
pub fn named_children(
    alloc: Global,
    setup: &Setup,
    state: &State,
    container: Container,
) -> Result<Vec<Child>, AllocError>
    ensures { IfOk result (λ list. list.items
        ≡ named_children setup.now state.now container) }
{
    match container {
        Container::Thread(thread) => of_thread(alloc, thread),
        Container::Rings => of_rings(alloc),
        Container::Objects => of_world(alloc, setup),
        Container::Request(number) => of_request(alloc, number),
        Container::Object(number) => of_object(alloc, setup, number),
        Container::Descriptor(number) => of_descriptor(alloc, state, number),
        _ => Ok(Vec::new(alloc)),
    }
}

/// Returns some children of a container whose children are numbered.
pub fn numbered_children(
    alloc: Global,
    container: Container,
    from: u32,
    to: u32,
) -> Result<Vec<Child>, AllocError>
    requires { from ≤ to }
    ensures { IfOk result (λ list. list.items ≡ numbered_children container from (to - from)) }
{
    let mut list = Vec::new(alloc);
    for index in from..to {
        list.push(Child::Place(place_in(container, index)))?;
    }
    Ok(list)
}
