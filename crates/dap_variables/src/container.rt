//! Containers of variables, and their references.
ghost use Rattle.std.specs.Prelude.{◌≡◌, ◌<◌, ◌^◌};
ghost use Rattle.dap_variables.specs.Containers.{container_at, container_of, containers, kind_of, number_of, reference_of};

use stops::EditorThread;

/// How many containers of one kind there are at most.
const MOST: u32 = 65536;

/// The greatest reference that an editor can hold.
const LAST: u64 = 2147483647;

/// What has variables: a scope, or a variable with children.
#[derive(Clone, Copy, PartialEq, Eq)]
pub enum Container {
    /// The scope of a thread.
    Thread(EditorThread),
    Rings,
    Requests,
    Objects,
    Memory,
    /// What the event before the position changed.
    Changes,
    Findings,
    /// The index array of the submission ring.
    Array,
    /// The slots for submission entries.
    Entries,
    Completions,
    /// The overflowed completions.
    Backlog,
    /// A request, by its number.
    Request(u32),
    /// An object, by its number.
    Object(u32),
    /// A descriptor, by its number.
    Descriptor(u32),
    /// The bytes of a file, by its object's number.
    File(u32),
    /// The durable bytes of a file.
    Durable(u32),
    /// The bytes of a pipe's ring buffer.
    Pipe(u32),
}

fn kind_of(container: Container) -> u32
    ensures kind { result ≡ kind_of container }
    ensures few { result < 20 }
{
    match container {
        Container::Thread(EditorThread::Run) => 0,
        Container::Thread(EditorThread::Thread(_)) => 1,
        Container::Thread(EditorThread::Poller) => 2,
        Container::Thread(EditorThread::Kernel) => 3,
        Container::Rings => 4,
        Container::Requests => 5,
        Container::Objects => 6,
        Container::Memory => 7,
        Container::Changes => 8,
        Container::Findings => 9,
        Container::Array => 10,
        Container::Entries => 11,
        Container::Completions => 12,
        Container::Backlog => 13,
        Container::Request(_) => 14,
        Container::Object(_) => 15,
        Container::Descriptor(_) => 16,
        Container::File(_) => 17,
        Container::Durable(_) => 18,
        Container::Pipe(_) => 19,
    }
}

fn number_of(container: Container) -> u32
    ensures { result ≡ number_of container }
{
    match container {
        Container::Thread(EditorThread::Thread(number))
        | Container::Request(number)
        | Container::Object(number)
        | Container::Descriptor(number)
        | Container::File(number)
        | Container::Durable(number)
        | Container::Pipe(number) => number,
        _ => 0,
    }
}

/// Returns the reference of a container, which an editor names it by. The number that a container
/// has, of a thread, a request, an object or a descriptor, is below 65,536.
#[tactic(auto, unfolding(crate::specs::Containers::reference_of))]
pub fn reference_of(container: Container) -> u32
    ensures reference { result ≡ reference_of container }
    ensures some { 0 < result }
    ensures most { result < 2 ^ 31 }
{
    MOST * kind_of(container) + number_of(container) % MOST + 1
}

// Returns the containers with a number, one of each kind.
fn containers(number: u32) -> [Container; 20]
    ensures { result ≡ containers number }
{
    [
        Container::Thread(EditorThread::Run),
        Container::Thread(EditorThread::Thread(number)),
        Container::Thread(EditorThread::Poller),
        Container::Thread(EditorThread::Kernel),
        Container::Rings,
        Container::Requests,
        Container::Objects,
        Container::Memory,
        Container::Changes,
        Container::Findings,
        Container::Array,
        Container::Entries,
        Container::Completions,
        Container::Backlog,
        Container::Request(number),
        Container::Object(number),
        Container::Descriptor(number),
        Container::File(number),
        Container::Durable(number),
        Container::Pipe(number),
    ]
}

// Returns the container of a kind with a number, if there is one.
fn container_at(kind: u32, number: u32) -> Option<Container>
    ensures { result ≡ container_at kind number }
{
    match containers(number).get(kind as usize) {
        Some(container) if number_of(*container) == number => Some(*container),
        _ => None,
    }
}

/// Returns the container with a reference.
#[tactic(auto, unfolding(crate::specs::Containers::container_of))]
pub fn container_of(reference: u64) -> Option<Container>
    ensures { result ≡ container_of reference }
{
    if reference == 0 || reference > LAST {
        return None;
    }
    let index = (reference - 1) as u32;
    container_at(index / MOST, index % MOST)
}
