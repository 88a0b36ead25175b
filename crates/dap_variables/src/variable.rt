//! Variables: places, fields of requests, and containers within containers.
ghost use Rattle.std.specs.Prelude.{◌≡◌, IfOk};
ghost use Rattle.scenario.specs.PlaceTexts.{name_of, place_text};
ghost use Rattle.dap_variables.specs.Variables.{child_variable, container_in, descriptor_object, field_variable, kind_text, nested_name, nested_value, nested_variable, object_kind, place_variable, plain_variable};

use crate::children::{Child, FIRST_DESCRIPTOR};
use crate::container::Container;
use crate::counts::count_of;
use crate::requests::{RequestField, field_text};
use machine::{Setup, State};
use places::{Contents, Items, Place};
use run_log::value_shown;
use scenario::put_place;
use std::alloc::{AllocError, Global};

/// A variable.
#[derive(Drop)]
pub struct Variable {
    pub name: Items<u8>,
    pub value: Items<u8>,
    /// The place whose value it is, if it is one. The name is then that of the place in commands.
    pub place: Option<Place>,
    /// The container of its children, if it has some.
    pub container: Option<Container>,
    /// How many children it has that are numbered.
    pub indexed: u32,
}

/// Returns the bytes of a text.
pub fn bytes_of(alloc: Global, text: &str) -> Result<Items<u8>, AllocError>
    ensures { IfOk result (λ bytes. bytes ≡ text.now) }
{
    let bytes = Vec::from_slice(alloc, text.as_bytes())?;
    Ok(Items::from_vec(bytes))
}

/// Returns the name of a place, as commands spell it.
pub(crate) fn place_text(
    alloc: Global,
    setup: &Setup,
    place: Place,
) -> Result<Items<u8>, AllocError>
    ensures { IfOk result (λ text. text ≡ place_text setup.now place) }
{
    let mut text = Vec::new(alloc);
    put_place(alloc, &mut text, setup, place)?;
    Ok(Items::from_vec(text))
}

// Returns the container of a place's children, if it has some.
fn container_in(place: Place) -> Option<Container>
    ensures { result ≡ container_in place }
{
    match place {
        Place::Request(number) => Some(Container::Request(number)),
        _ => None,
    }
}

/// Returns the variable of a place.
pub fn place_variable(
    alloc: Global,
    setup: &Setup,
    state: &State,
    place: Place,
) -> Result<Variable, AllocError>
    ensures { IfOk result (λ v. v ≡ place_variable setup.now state.now place) }
{
    Ok(Variable {
        name: place_text(alloc, setup, place)?,
        value: Items::from_vec(value_shown(alloc, state.value(place))?),
        place: Some(place),
        container: container_in(place),
        indexed: 0,
    })
}

fn field_variable(
    alloc: Global,
    state: &State,
    number: u32,
    field: RequestField,
) -> Result<Variable, AllocError>
    ensures { IfOk result (λ v. v ≡ field_variable state.now number field) }
{
    let value = match state.row(number) {
        Some(row) => field_text(alloc, field, &row)?,
        None => Items::new(alloc),
    };
    Ok(Variable {
        name: bytes_of(alloc, field.name())?,
        value,
        place: None,
        container: None,
        indexed: 0,
    })
}

fn object_name(alloc: Global, setup: &Setup, number: u32) -> Result<Items<u8>, AllocError>
    ensures { IfOk result (λ name. name ≡ name_of setup.now number) }
{
    match setup.objects.as_slice().get(number as usize) {
        Some(object) => object.name.copy(alloc),
        None => Ok(Items::new(alloc)),
    }
}

// Returns the name of the object of a descriptor.
fn descriptor_object(alloc: Global, setup: &Setup, number: u32) -> Result<Items<u8>, AllocError>
    ensures { IfOk result (λ name. name ≡ descriptor_object setup.now number) }
{
    let index = number.saturating_sub(FIRST_DESCRIPTOR);
    match setup.fds.as_slice().get(index as usize) {
        Some(descriptor) => object_name(alloc, setup, descriptor.object),
        None => Ok(Items::new(alloc)),
    }
}

fn kind_text(contents: &Contents) -> &'static str
    ensures { result.now ≡ kind_text contents.now }
{
    match contents {
        Contents::File(_) => "file",
        Contents::Pipe(_) => "pipe",
        Contents::EventFd(_) => "eventfd",
    }
}

fn object_kind(setup: &Setup, number: u32) -> &'static str
    ensures { result.now ≡ object_kind setup.now number }
{
    match setup.objects.as_slice().get(number as usize) {
        Some(object) => kind_text(&object.contents),
        None => "",
    }
}

fn nested_name(alloc: Global, setup: &Setup, container: Container) -> Result<Items<u8>, AllocError>
    ensures { IfOk result (λ name. name ≡ nested_name setup.now container) }
{
    match container {
        Container::Object(number) => object_name(alloc, setup, number),
        Container::Descriptor(number) => {
            let text = format!(in alloc; "fd {number}")?;
            Ok(Items::from_vec(text.into_bytes()))
        }
        Container::Array => bytes_of(alloc, "array"),
        Container::Entries => bytes_of(alloc, "slots"),
        Container::Completions => bytes_of(alloc, "completions"),
        Container::Backlog => bytes_of(alloc, "backlog"),
        Container::Durable(_) => bytes_of(alloc, "durable bytes"),
        _ => bytes_of(alloc, "bytes"),
    }
}

fn nested_value(
    alloc: Global,
    setup: &Setup,
    state: &State,
    container: Container,
) -> Result<Items<u8>, AllocError>
    ensures { IfOk result (λ text. text ≡ nested_value setup.now state.now container) }
{
    match container {
        Container::Object(number) => bytes_of(alloc, object_kind(setup, number)),
        Container::Descriptor(number) => descriptor_object(alloc, setup, number),
        _ => {
            let count = count_of(setup, state, container);
            let text = format!(in alloc; "{count}")?;
            Ok(Items::from_vec(text.into_bytes()))
        }
    }
}

fn nested_variable(
    alloc: Global,
    setup: &Setup,
    state: &State,
    container: Container,
) -> Result<Variable, AllocError>
    ensures { IfOk result (λ v. v ≡ nested_variable setup.now state.now container) }
{
    Ok(Variable {
        name: nested_name(alloc, setup, container)?,
        value: nested_value(alloc, setup, state, container)?,
        place: None,
        container: Some(container),
        indexed: count_of(setup, state, container),
    })
}

/// Returns the variable of a child.
pub fn child_variable(
    alloc: Global,
    setup: &Setup,
    state: &State,
    child: Child,
) -> Result<Variable, AllocError>
    ensures { IfOk result (λ v. v ≡ child_variable setup.now state.now child) }
{
    match child {
        Child::Place(place) => place_variable(alloc, setup, state, place),
        Child::Field(number, field) => field_variable(alloc, state, number, field),
        Child::Nested(container) => nested_variable(alloc, setup, state, container),
    }
}

/// Returns a variable without a place and without children.
pub fn plain_variable(name: Items<u8>, value: Items<u8>) -> Variable
    ensures { result ≡ plain_variable name value }
{
    Variable {
        name,
        value,
        place: None,
        container: None,
        indexed: 0,
    }
}
