//! The objects and descriptors at the start of a run, and copies of objects.
ghost use Rattle.std.specs.Prelude.{◌≡◌, ℕ, IfOk, Some, map, slice_get};
ghost use Rattle.places.specs.declared.object.Object.{Object};
ghost use Rattle.std.specs.Option.{option_and_then};
ghost use Rattle.model_files.specs.Worlds.{body_start, descriptor_start, position_start, ContentsFit};

use crate::body::Body;
use crate::descriptor::DescriptorState;
use crate::file::RegularFile;
use crate::pipe::PipeBuffer;
use places::{Contents, Descriptor, Object};
use std::alloc::{AllocError, Global};

/// Builds the objects of a setup.
pub(crate) fn start_objects(alloc: Global, objects: &[Object]) -> Result<Vec<Body>, AllocError>
    requires { (i : ℕ) (o : Object) → slice_get objects.now i ≡ Some o → ContentsFit o.contents }
    ensures { IfOk result (λ bodies. bodies.items ≡ map (λ o. body_start o.contents) objects.now) }
{
    let mut bodies = Vec::new(alloc);
    for object in objects {
        bodies.push(start_body(alloc, &object.contents)?)?;
    }
    Ok(bodies)
}

fn start_body(alloc: Global, contents: &Contents) -> Result<Body, AllocError>
    requires { ContentsFit contents.now }
    ensures { IfOk result (λ body. body ≡ body_start contents.now) }
{
    Ok(match contents {
        Contents::File(bytes) => Body::File(RegularFile::new(alloc, bytes.as_slice())?),
        Contents::Pipe(capacity) => Body::Pipe(PipeBuffer::new(alloc, *capacity as usize)?),
        Contents::EventFd(counter) => Body::EventFd(*counter),
    })
}

/// Builds the descriptors of a setup, all open.
pub(crate) fn start_descriptors(
    alloc: Global,
    objects: &[Object],
    descriptors: &[Descriptor],
) -> Result<Vec<DescriptorState>, AllocError>
    ensures { IfOk result (λ all. all.items ≡ map (descriptor_start objects.now) descriptors.now) }
{
    let mut all = Vec::new(alloc);
    for descriptor in descriptors {
        all.push(start_descriptor(objects, *descriptor))?;
    }
    Ok(all)
}

fn start_descriptor(objects: &[Object], descriptor: Descriptor) -> DescriptorState
    ensures { result ≡ descriptor_start objects.now descriptor }
{
    DescriptorState {
        object: descriptor.object,
        end: descriptor.end,
        is_open: true,
        position: start_position(objects, descriptor.object),
    }
}

fn start_position(objects: &[Object], object: u32) -> Option<u64>
    ensures { result ≡ option_and_then (λ o. position_start o.contents)
        (slice_get objects.now object) }
{
    match objects.get(object as usize) {
        Some(object) => match object.contents {
            Contents::File(_) => Some(0),
            _ => None,
        },
        None => None,
    }
}

/// Returns a copy of the objects.
pub(crate) fn copy_objects(alloc: Global, objects: &[Body]) -> Result<Vec<Body>, AllocError>
    ensures { IfOk result (λ copies. copies.items ≡ objects.now) }
{
    let mut copies = Vec::new(alloc);
    for body in objects {
        copies.push(body.copy(alloc)?)?;
    }
    Ok(copies)
}
