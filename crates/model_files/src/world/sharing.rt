//! Copies of a world that share its bytes until they are written.
ghost use Rattle.std.specs.Prelude.{◌≡◌, IfOk, map};
ghost use Rattle.model_files.specs.Shared.{body_of};

use super::World;
use crate::body::Body;
use crate::descriptor::DescriptorState;
use crate::shared::SharedBody;
use shared_pages::Page;
use std::alloc::{AllocError, Global};
use std::marker::Model;
use std::sync::Arc;

/// A copy of a world that shares its bytes. Contracts see it as the world.
pub struct SharedWorld {
    memory: Arc<Vec<u8>>,
    objects: Vec<SharedBody>,
    descriptors: Vec<DescriptorState>,
}

// Written by hand, so that dropping it is one step of a proof.
impl Drop for SharedWorld {
    fn drop(self) {
        let SharedWorld {
            memory: _,
            objects: _,
            descriptors: _,
        } = self;
    }
}

impl Model for SharedWorld {
    ghost use Rattle.std.specs.Prelude.{◌≡◌, length, map};
    ghost use Rattle.model_files.specs.Shared.{body_of};
    ghost use Rattle.model_files.specs.Worlds.{WorldState};

    ghost Value = { WorldState };

    ghost view = { λ a. record {
      memory = a.memory.value.items;
      objects = map body_of a.objects.items;
      descriptors = a.descriptors.items;
    } };

    ghost invariant = { λ a. length a.memory.value.items ≡ 65536 };
}

impl SharedWorld {
    /// Returns the world, in the storage of `room` as far as that fits.
    pub fn restore(&self, alloc: Global, room: Option<World>) -> Result<World, AllocError>
        ensures { IfOk result (λ world. world ≡ self.now) }
    {
        let (memory, objects) = rooms_in(alloc, room);
        Ok(World {
            memory: Page::restore(alloc, &self.memory, memory)?,
            objects: restore_objects(alloc, &self.objects, objects)?,
            descriptors: Vec::from_slice(alloc, &self.descriptors)?,
        })
    }
}

impl World {
    /// Returns a copy that shares the bytes. Copies only bytes that were written since the last
    /// shared copy.
    pub fn share(&mut self, alloc: Global) -> Result<SharedWorld, AllocError>
        ensures ok { IfOk result (λ world. world ≡ self.old) }
        ensures same { self.new ≡ self.old }
    {
        Ok(SharedWorld {
            memory: self.memory.keep(alloc)?,
            objects: share_objects(alloc, &mut self.objects)?,
            descriptors: Vec::from_slice(alloc, &self.descriptors)?,
        })
    }

    // Returns the memory and the objects.
    fn into_bytes(self) -> (Page<u8>, Vec<Body>) {
        let World {
            memory,
            objects,
            descriptors: _descriptors,
        } = self;
        (memory, objects)
    }
}

// Returns the memory and the objects of a world, to be written over.
fn rooms_in(alloc: Global, room: Option<World>) -> (Option<Page<u8>>, Vec<Body>) {
    let Some(world) = room else {
        return (None, Vec::new(alloc));
    };
    let (memory, objects) = world.into_bytes();
    (Some(memory), objects)
}

// Returns shared copies of the objects.
fn share_objects(alloc: Global, objects: &mut [Body]) -> Result<Vec<SharedBody>, AllocError>
    ensures ok { IfOk result (λ shared. map body_of shared.items ≡ objects.old) }
    ensures same { objects.new ≡ objects.old }
{
    let mut shared = Vec::new(alloc);
    for i in 0..objects.len() {
        shared.push(objects[i].share(alloc)?)?;
    }
    Ok(shared)
}

// Returns the objects, each in the storage of the one in `rooms` with its number, if there is one.
fn restore_objects(
    alloc: Global,
    shared: &[SharedBody],
    rooms: Vec<Body>,
) -> Result<Vec<Body>, AllocError>
    ensures { IfOk result (λ objects. objects.items ≡ map body_of shared.now) }
{
    let mut rooms = rooms.into_iter();
    let mut objects = Vec::new(alloc);
    for body in shared {
        objects.push(body.restore(alloc, rooms.next())?)?;
    }
    Ok(objects)
}
