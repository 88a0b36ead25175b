//! Names of places that include the name of an object.
ghost use Rattle.std.specs.Prelude.{◌≡◌, Some};
ghost use Rattle.std.specs.List.{position};
ghost use Rattle.scenario.specs.Names.{object_place_named, byte_place_named, is_of, is_object_of, object_named, most_bytes, bytes_of, owner_of, object_place, byte_of, byte_named, number_of};

use crate::holdings::is_named;
use crate::names::{PlaceFault, read_number};
use crate::place_text::is_word_of;
use crate::setup::Setup;
use places::{Contents, Object, Place};

/// The kind of an object.
#[derive(Clone, Copy)]
pub enum ObjectKind {
    File,
    Pipe,
    EventFd,
}

/// A place that an object has once.
#[derive(Clone, Copy)]
pub enum ObjectPlace {
    FileLength,
    DurableLength,
    PutCount,
    TakenCount,
    EventCount,
}

/// A kind of byte of an object.
#[derive(Clone, Copy)]
pub enum BytePlace {
    FileByte,
    DurableByte,
    PipeByte,
}

const OBJECT_PLACES: [ObjectPlace; 5] = [
    ObjectPlace::FileLength,
    ObjectPlace::DurableLength,
    ObjectPlace::PutCount,
    ObjectPlace::TakenCount,
    ObjectPlace::EventCount,
];

const BYTE_PLACES: [BytePlace; 3] = [
    BytePlace::FileByte,
    BytePlace::DurableByte,
    BytePlace::PipeByte,
];

/// Returns the kind of place that a word followed by an object's name names.
pub(crate) fn object_place_of_name(name: &[u8]) -> Option<ObjectPlace>
    ensures { result ≡ object_place_named name.now }
{
    OBJECT_PLACES
        .iter()
        .find(|place| is_word_of(name, place.in_object(0)))
        .copied()
}

/// Returns the kind of byte that a word, an object's name and a number name.
pub(crate) fn byte_of_name(name: &[u8]) -> Option<BytePlace>
    ensures { result ≡ byte_place_named name.now }
{
    BYTE_PLACES
        .iter()
        .find(|place| is_word_of(name, place.in_object(0, 0)))
        .copied()
}

/// Returns whether an object has this kind.
pub(crate) fn is_of(kind: ObjectKind, contents: &Contents) -> bool
    ensures { result ≡ is_of kind contents.now }
{
    matches!(
        (kind, contents),
        (ObjectKind::File, Contents::File(_))
            | (ObjectKind::Pipe, Contents::Pipe(_))
            | (ObjectKind::EventFd, Contents::EventFd(_))
    )
}

fn is_object_of(kind: ObjectKind, name: &[u8], object: &Object) -> bool
    ensures { result ≡ is_object_of kind name.now object.now }
{
    is_named(name, object) && is_of(kind, &object.contents)
}

fn index_of(objects: &[Object], kind: ObjectKind, name: &[u8]) -> Option<usize>
    ensures { result ≡ position (is_object_of kind name.now) objects.now }
{
    objects
        .iter()
        .position(|object| is_object_of(kind, name, object))
}

// Returns the number of the object with this name and kind.
fn object_named(setup: &Setup, kind: ObjectKind, name: &[u8]) -> Option<u32>
    ensures { result ≡ object_named setup.now kind name.now }
{
    match index_of(setup.objects.as_slice(), kind, name) {
        Some(index) => u32::try_from(index).ok(),
        None => None,
    }
}

fn most_bytes(contents: &Contents) -> u32
    ensures { result ≡ most_bytes contents.now }
{
    match contents {
        Contents::File(_) => 65536,
        Contents::Pipe(capacity) => *capacity,
        Contents::EventFd(_) => 0,
    }
}

// Returns how many bytes an object can hold.
fn bytes_of(setup: &Setup, object: u32) -> u32
    ensures { result ≡ bytes_of setup.now object }
{
    match setup.objects.as_slice().get(object as usize) {
        Some(object) => most_bytes(&object.contents),
        None => 0,
    }
}

/// Returns the place of the object with this name.
pub(crate) fn object_place(setup: &Setup, place: ObjectPlace, name: &[u8]) -> Option<Place>
    ensures { result ≡ object_place setup.now (Some place) name.now }
{
    let object = object_named(setup, place.owner(), name)?;
    Some(place.in_object(object))
}

/// Returns the byte with the index in `word`, of the object with this name. If there is no such
/// object, `word` is not read.
pub(crate) fn byte_place(
    setup: &Setup,
    place: BytePlace,
    name: &[u8],
    word: &[u8],
) -> Result<Place, PlaceFault>
    ensures { result ≡ byte_named setup.now (Some place) name.now word.now }
{
    match object_named(setup, place.owner(), name) {
        Some(object) => byte_of(setup, place, object, word),
        None => Err(PlaceFault::Place),
    }
}

fn byte_of(setup: &Setup, place: BytePlace, object: u32, word: &[u8]) -> Result<Place, PlaceFault>
    ensures { result ≡ byte_of setup.now place object (number_of word.now) }
{
    let Some(index) = read_number(word) else {
        return Err(PlaceFault::Number);
    };
    if index < bytes_of(setup, object) {
        Ok(place.in_object(object, index))
    } else {
        Err(PlaceFault::Place)
    }
}

impl ObjectPlace {
    ghost use Rattle.scenario.specs.Names.{owner_of, place_of_object};

    // Returns the kind of object that has such a place.
    fn owner(self) -> ObjectKind
        ensures { result ≡ owner_of self }
    {
        match self {
            ObjectPlace::FileLength | ObjectPlace::DurableLength => ObjectKind::File,
            ObjectPlace::PutCount | ObjectPlace::TakenCount => ObjectKind::Pipe,
            ObjectPlace::EventCount => ObjectKind::EventFd,
        }
    }

    fn in_object(self, object: u32) -> Place
        ensures { result ≡ place_of_object self object }
    {
        match self {
            ObjectPlace::FileLength => Place::FileLength(object),
            ObjectPlace::DurableLength => Place::DurableLength(object),
            ObjectPlace::PutCount => Place::PutCount(object),
            ObjectPlace::TakenCount => Place::TakenCount(object),
            ObjectPlace::EventCount => Place::EventCount(object),
        }
    }
}

impl BytePlace {
    ghost use Rattle.scenario.specs.Names.{owner_of_byte, place_of_byte};

    // Returns the kind of object that has such a byte.
    fn owner(self) -> ObjectKind
        ensures { result ≡ owner_of_byte self }
    {
        match self {
            BytePlace::FileByte | BytePlace::DurableByte => ObjectKind::File,
            BytePlace::PipeByte => ObjectKind::Pipe,
        }
    }

    fn in_object(self, object: u32, index: u32) -> Place
        ensures { result ≡ place_of_byte self object index }
    {
        match self {
            BytePlace::FileByte => Place::FileByte(object, index),
            BytePlace::DurableByte => Place::DurableByte(object, index),
            BytePlace::PipeByte => Place::PipeByte(object, index),
        }
    }
}
