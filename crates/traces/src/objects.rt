//! Reads the objects and descriptors of a setup.
ghost use Rattle.std.specs.Prelude.{◌≡◌, ◌-◌, ◌^◌, nat_lt, [], Some};
ghost use Rattle.std.specs.List.{list_all};
ghost use Rattle.places.specs.declared.object.Object.{Object};
ghost use Rattle.traces.specs.Cursors.{at_offset};
ghost use Rattle.traces.specs.Reading.{Gives, number_in, bytes_at, long_at, name_at, contents_of, contents_at, object_at, end_at, descriptor_at, items_at, list_at, end_of};
ghost use Rattle.traces.specs.Limits.{is_name_byte, is_same, has_name, is_new_name, is_end_of};

use crate::fault::TraceFault;
use crate::offsets::{bytes_at, count_at, u8_at, u8_below, u8_within, u32_within, u64_at};
use places::{Contents, Descriptor, End, Items, Object};
use std::alloc::Global;

/// Reads a length of at most `most`, and that many bytes.
#[tactic(auto, unfolding(crate::specs::Reading::long_at))]
pub(crate) fn read_long(
    alloc: Global,
    bytes: &[u8],
    offset: usize,
    most: u32,
) -> Result<(Items<u8>, usize), TraceFault>
    ensures { Gives (λ x. (x.0, at_offset bytes.now x.1)) result
        (long_at most (at_offset bytes.now offset)) }
{
    let (count, after) = count_at(bytes, offset, most)?;
    let (items, after) = bytes_at(bytes, after, count as usize)?;
    let items = Vec::from_slice(alloc, items)?;
    Ok((Items::from_vec(items), after))
}

fn is_name_byte(byte: u8) -> bool
    ensures { result ≡ is_name_byte byte }
{
    matches!(byte, b'a'..=b'z' | b'0'..=b'9' | b'_')
}

fn is_same(left: &[u8], right: &[u8]) -> bool
    ensures { result ≡ is_same left.now right.now }
{
    left == right
}

fn has_name(objects: &[Object], name: &[u8]) -> bool
    ensures { result ≡ has_name objects.now name.now }
{
    objects
        .iter()
        .any(|object| is_same(object.name.as_slice(), name))
}

fn are_name_bytes(name: &[u8]) -> bool
    ensures { result ≡ list_all is_name_byte name.now }
{
    name.iter().all(|byte| is_name_byte(*byte))
}

fn is_new_name(before: &[Object], name: &[u8]) -> bool
    ensures { result ≡ is_new_name before.now name.now }
{
    are_name_bytes(name) && !has_name(before, name)
}

#[tactic(auto, unfolding(crate::specs::Reading::name_at))]
fn read_name(
    alloc: Global,
    before: &[Object],
    bytes: &[u8],
    offset: usize,
) -> Result<(Items<u8>, usize), TraceFault>
    ensures { Gives (λ x. (x.0, at_offset bytes.now x.1)) result
        (name_at before.now (at_offset bytes.now offset)) }
{
    let (count, at) = u8_within(bytes, offset, 1, 16)?;
    let (name, after) = bytes_at(bytes, at, usize::from(count))?;
    if !is_new_name(before, name) {
        return Err(TraceFault::Setup(at));
    }
    let name = Vec::from_slice(alloc, name)?;
    Ok((Items::from_vec(name), after))
}

#[tactic(auto, unfolding(crate::specs::Reading::number_in))]
fn read_counter(bytes: &[u8], offset: usize) -> Result<(u64, usize), TraceFault>
    ensures { Gives (λ x. (x.0, at_offset bytes.now x.1)) result
        (number_in 8 (λ n. nat_lt n (2 ^ 64 - 1)) (at_offset bytes.now offset)) }
{
    let (counter, after) = u64_at(bytes, offset)?;
    if counter == u64::MAX {
        return Err(TraceFault::Setup(offset));
    }
    Ok((counter, after))
}

#[tactic(auto, unfolding(crate::specs::Reading::contents_of))]
fn read_contents_of(
    alloc: Global,
    kind: u8,
    bytes: &[u8],
    offset: usize,
) -> Result<(Contents, usize), TraceFault>
    ensures { Gives (λ x. (x.0, at_offset bytes.now x.1)) result
        (contents_of kind (at_offset bytes.now offset)) }
{
    match kind {
        1 => {
            let (items, after) = read_long(alloc, bytes, offset, 65536)?;
            Ok((Contents::File(items), after))
        }
        2 => {
            let (capacity, after) = u32_within(bytes, offset, 1, 65536)?;
            Ok((Contents::Pipe(capacity), after))
        }
        _ => {
            let (counter, after) = read_counter(bytes, offset)?;
            Ok((Contents::EventFd(counter), after))
        }
    }
}

#[tactic(auto, unfolding(crate::specs::Reading::contents_at))]
fn read_contents(
    alloc: Global,
    bytes: &[u8],
    offset: usize,
) -> Result<(Contents, usize), TraceFault>
    ensures { Gives (λ x. (x.0, at_offset bytes.now x.1)) result
        (contents_at (at_offset bytes.now offset)) }
{
    let (kind, after) = u8_within(bytes, offset, 1, 3)?;
    read_contents_of(alloc, kind, bytes, after)
}

#[tactic(auto, unfolding(crate::specs::Reading::object_at))]
fn read_object(
    alloc: Global,
    before: &[Object],
    bytes: &[u8],
    offset: usize,
) -> Result<(Object, usize), TraceFault>
    ensures { Gives (λ x. (x.0, at_offset bytes.now x.1)) result
        (object_at before.now (at_offset bytes.now offset)) }
{
    let (name, after) = read_name(alloc, before, bytes, offset)?;
    let (contents, after) = read_contents(alloc, bytes, after)?;
    Ok((Object { name, contents }, after))
}

fn read_objects_counted(
    alloc: Global,
    count: u32,
    bytes: &[u8],
    offset: usize,
) -> Result<(Vec<Object>, usize), TraceFault>
    ensures { Gives (λ x. (x.0.items, at_offset bytes.now x.1)) result
        (items_at object_at count [] (at_offset bytes.now offset)) }
{
    let mut objects = Vec::new(alloc);
    let mut at = offset;
    for _ in 0..count {
        let (object, after) = read_object(alloc, &objects, bytes, at)?;
        objects.push(object)?;
        at = after;
    }
    Ok((objects, at))
}

/// Reads the objects, whose names are unique.
#[tactic(auto, unfolding(crate::specs::Reading::list_at))]
pub(crate) fn read_objects(
    alloc: Global,
    bytes: &[u8],
    offset: usize,
) -> Result<(Items<Object>, usize), TraceFault>
    ensures { Gives (λ x. (x.0, at_offset bytes.now x.1)) result
        (list_at 32 object_at (at_offset bytes.now offset)) }
{
    let (count, after) = count_at(bytes, offset, 32)?;
    let (objects, after) = read_objects_counted(alloc, count, bytes, after)?;
    Ok((Items::from_vec(objects), after))
}

fn is_end_of(contents: &Contents, number: u8) -> bool
    ensures { result ≡ is_end_of contents.now number }
{
    match contents {
        Contents::Pipe(_) => number == 1 || number == 2,
        Contents::File(_) | Contents::EventFd(_) => number == 0,
    }
}

fn end_of(number: u8) -> End
    ensures { result ≡ end_of number }
{
    match number {
        0 => End::Whole,
        1 => End::Read,
        _ => End::Write,
    }
}

#[tactic(auto, unfolding(crate::specs::Reading::number_in, crate::specs::Reading::end_at))]
fn read_end(object: &Object, bytes: &[u8], offset: usize) -> Result<(End, usize), TraceFault>
    ensures { Gives (λ x. (x.0, at_offset bytes.now x.1)) result
        (end_at (Some object.now) (at_offset bytes.now offset)) }
{
    let (number, after) = u8_at(bytes, offset)?;
    if !is_end_of(&object.contents, number) {
        return Err(TraceFault::Setup(offset));
    }
    Ok((end_of(number), after))
}

#[tactic(auto, unfolding(crate::specs::Reading::descriptor_at))]
fn read_descriptor(
    objects: &[Object],
    bytes: &[u8],
    offset: usize,
) -> Result<(Descriptor, usize), TraceFault>
    ensures { Gives (λ x. (x.0, at_offset bytes.now x.1)) result
        (descriptor_at objects.now (at_offset bytes.now offset)) }
{
    let (object, after) = u8_below(bytes, offset, objects.len())?;
    let (end, after) = read_end(&objects[usize::from(object)], bytes, after)?;
    let object = u32::from(object);
    Ok((Descriptor { object, end }, after))
}

fn read_descriptors_counted(
    alloc: Global,
    count: u32,
    objects: &[Object],
    bytes: &[u8],
    offset: usize,
) -> Result<(Vec<Descriptor>, usize), TraceFault>
    ensures { Gives (λ x. (x.0.items, at_offset bytes.now x.1)) result
        (items_at (λ before. descriptor_at objects.now) count [] (at_offset bytes.now offset)) }
{
    let mut descriptors = Vec::new(alloc);
    let mut at = offset;
    for _ in 0..count {
        let (descriptor, after) = read_descriptor(objects, bytes, at)?;
        descriptors.push(descriptor)?;
        at = after;
    }
    Ok((descriptors, at))
}

/// Reads the descriptors, which refer to these objects.
#[tactic(auto, unfolding(crate::specs::Reading::list_at))]
pub(crate) fn read_descriptors(
    alloc: Global,
    objects: &Items<Object>,
    bytes: &[u8],
    offset: usize,
) -> Result<(Items<Descriptor>, usize), TraceFault>
    ensures { Gives (λ x. (x.0, at_offset bytes.now x.1)) result
        (list_at 64 (λ before. descriptor_at objects.now) (at_offset bytes.now offset)) }
{
    let (count, after) = count_at(bytes, offset, 64)?;
    let (descriptors, after) = read_descriptors_counted(
        alloc,
        count,
        objects.as_slice(),
        bytes,
        after,
    )?;
    Ok((Items::from_vec(descriptors), after))
}
