//! The limits of objects and descriptors.
ghost use Rattle.std.specs.Prelude.{◌≡◌};
ghost use Rattle.std.specs.List.{list_all, list_any};
ghost use Rattle.scenario.specs.Setups.{is_name_byte, is_name, is_contents, is_object, is_named, names_once, has_objects, is_end, is_descriptor, has_descriptors};

use crate::setup::Setup;
use places::{Contents, Descriptor, End, Object};

/// Returns whether there are at most 32 objects, each within its limits, all with different names.
pub(crate) fn has_objects(setup: &Setup) -> bool
    ensures { result ≡ has_objects setup.now }
{
    let objects = setup.objects.as_slice();
    objects.len() <= 32 && are_objects(objects) && names_once(objects)
}

fn are_objects(objects: &[Object]) -> bool
    ensures { result ≡ list_all is_object objects.now }
{
    objects.iter().all(|object| is_object(object))
}

fn is_object(object: &Object) -> bool
    ensures { result ≡ is_object object.now }
{
    is_name(object.name.as_slice()) && is_contents(&object.contents)
}

/// Returns whether bytes are a valid object name: 1 to 16 of a to z, 0 to 9 and the underscore.
pub fn is_name(name: &[u8]) -> bool
    ensures { result ≡ is_name name.now }
{
    !name.is_empty() && name.len() <= 16 && are_name_bytes(name)
}

fn are_name_bytes(name: &[u8]) -> bool
    ensures { result ≡ list_all is_name_byte name.now }
{
    name.iter().all(|byte| is_name_byte(*byte))
}

fn is_name_byte(byte: u8) -> bool
    ensures { result ≡ is_name_byte byte }
{
    matches!(byte, b'a'..=b'z' | b'0'..=b'9' | b'_')
}

fn is_contents(contents: &Contents) -> bool
    ensures { result ≡ is_contents contents.now }
{
    match contents {
        Contents::File(bytes) => bytes.len() <= 65536,
        Contents::Pipe(capacity) => 1 <= *capacity && *capacity <= 65536,
        Contents::EventFd(counter) => *counter <= u64::MAX - 1,
    }
}

/// Returns whether the object has this name.
pub(crate) fn is_named(name: &[u8], object: &Object) -> bool
    ensures { result ≡ is_named name.now object.now }
{
    name == object.name.as_slice()
}

// Returns whether some object has this name.
fn has_name(name: &[u8], objects: &[Object]) -> bool
    ensures { result ≡ list_any (is_named name.now) objects.now }
{
    objects.iter().any(|object| is_named(name, object))
}

// Returns whether all objects have different names.
fn names_once(objects: &[Object]) -> bool
    ensures { result ≡ names_once objects.now }
{
    match objects {
        [] => true,
        [object, others @ ..] => { !has_name(object.name.as_slice(), others) && names_once(others) }
    }
}

/// Returns whether there are at most 64 descriptors, each of an end that its object has.
pub(crate) fn has_descriptors(setup: &Setup) -> bool
    ensures { result ≡ has_descriptors setup.now }
{
    setup.fds.len() <= 64 && are_descriptors(setup.objects.as_slice(), setup.fds.as_slice())
}

fn are_descriptors(objects: &[Object], descriptors: &[Descriptor]) -> bool
    ensures { result ≡ list_all (is_descriptor objects.now) descriptors.now }
{
    descriptors
        .iter()
        .all(|descriptor| is_descriptor(objects, *descriptor))
}

/// Returns whether a descriptor's object exists and has its end.
pub fn is_descriptor(objects: &[Object], descriptor: Descriptor) -> bool
    ensures { result ≡ is_descriptor objects.now descriptor }
{
    match objects.get(descriptor.object as usize) {
        Some(object) => is_end(&object.contents, descriptor.end),
        None => false,
    }
}

// Returns whether an object has such an end. A pipe has a read end and a write end, other objects
// only the whole.
fn is_end(contents: &Contents, end: End) -> bool
    ensures { result ≡ is_end contents.now end }
{
    match (contents, end) {
        (Contents::Pipe(_), End::Read | End::Write) => true,
        (Contents::File(_) | Contents::EventFd(_), End::Whole) => true,
        _ => false,
    }
}
