//! Theorems about the definitions: each step preserves the invariant of the world, and a pipe is a
//! queue.
ghost use Rattle.std.specs.Prelude.{◌≡◌, ◌+◌, ◌<◌, ◌≤◌, ◌^◌, ◌-◌, ◌++◌, ℕ, IsSomeAnd, List, Some, length, slice_get};
ghost use Rattle.places.specs.declared.object.Descriptor.{Descriptor};
ghost use Rattle.places.specs.declared.object.Object.{Object};
ghost use Rattle.model_files.specs.Pipes.{PipeState, PipeFormed, pipe_content, put_in, taken_out, bytes_from, filled, room_in, GivesOut, TakesIn};
ghost use Rattle.model_files.specs.Worlds.{WorldState, WorldFormed, ContentsFit, world_start, world_read, world_written, world_synced, world_stored, world_at, world_closed, world_taken, world_put, world_added, world_cleared, pipe_of, counter_of};

/// The world at the start of a run satisfies the invariant.
pub fn start_formed()
    ensures { (memory : List ℕ) (objects : List Object) (descriptors : List Descriptor)
        → length memory ≤ 65536
        → ((i : ℕ) (o : Object) → slice_get objects i ≡ Some o → ContentsFit o.contents)
        → length descriptors ≤ 64 → WorldFormed (world_start memory objects descriptors) }
{}

/// Reading from a file preserves the invariant.
pub fn read_formed()
    ensures { (object offset count address : ℕ) (w : WorldState) → WorldFormed w
        → address + count ≤ 65536 → WorldFormed (world_read object offset count address w) }
{}

/// Writing to a file preserves the invariant.
pub fn written_formed()
    ensures { (object offset count address : ℕ) (w : WorldState) → WorldFormed w
        → offset + count ≤ 65536 → WorldFormed (world_written object offset count address w) }
{}

/// An fsync preserves the invariant.
pub fn synced_formed()
    ensures { (object : ℕ) (w : WorldState) → WorldFormed w → WorldFormed (world_synced object w) }
{}

/// Storing bytes in memory preserves the invariant.
pub fn stored_formed()
    ensures { (address : ℕ) (bytes : List ℕ) (w : WorldState) → WorldFormed w
        → address + length bytes ≤ 65536 → WorldFormed (world_stored address bytes w) }
{}

/// Setting a file position of at most 65,536 preserves the invariant.
pub fn moved_formed()
    ensures { (fd position : ℕ) (w : WorldState) → WorldFormed w → position ≤ 65536
        → WorldFormed (world_at fd position w) }
{}

/// Closing a descriptor preserves the invariant.
pub fn closed_formed()
    ensures { (fd : ℕ) (w : WorldState) → WorldFormed w → WorldFormed (world_closed fd w) }
{}

/// Reading from a pipe preserves the invariant.
pub fn taken_formed()
    ensures { (object count address : ℕ) (w : WorldState) → WorldFormed w → address + count ≤ 65536
        → IsSomeAnd (pipe_of w object) (GivesOut count)
        → WorldFormed (world_taken object count address w) }
{}

/// Writing to a pipe preserves the invariant.
pub fn put_formed()
    ensures { (object count address : ℕ) (w : WorldState) → WorldFormed w
        → IsSomeAnd (pipe_of w object) (TakesIn count)
        → WorldFormed (world_put object count address w) }
{}

/// Adding to a counter preserves the invariant.
pub fn added_formed()
    ensures { (object number : ℕ) (w : WorldState) → WorldFormed w
        → IsSomeAnd (counter_of w object) (λ n. n + number < 2 ^ 64 - 1)
        → WorldFormed (world_added object number w) }
{}

/// Reading and resetting a counter preserves the invariant.
pub fn cleared_formed()
    ensures { (object address : ℕ) (w : WorldState) → WorldFormed w → address + 8 ≤ 65536
        → WorldFormed (world_cleared object address w) }
{}

/// Writing to a pipe appends the bytes to its contents.
pub fn put_bytes_come_last()
    ensures { (p : PipeState) (bytes : List ℕ) → PipeFormed p → length bytes ≤ room_in p
        → pipe_content (put_in bytes p) ≡ pipe_content p ++ bytes }
{}

/// Reading from a pipe takes the bytes from the front of its contents.
pub fn takes_the_oldest()
    ensures { (p : PipeState) (k : ℕ) → k ≤ filled p
        → pipe_content p ≡ bytes_from p.slots p.taken k ++ pipe_content (taken_out k p) }
{}
