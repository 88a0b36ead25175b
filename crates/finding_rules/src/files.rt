//! The files that entries name by their descriptors.
ghost use Rattle.std.specs.Prelude.{◌≡◌};
ghost use Rattle.finding_rules.specs.{number_in, file_of_descriptor, file_numbered, file_of, are_one, is_same_file};

use entries::Sqe;
use finding_kinds::{FIRST_DESCRIPTOR, descriptor_number};
use machine::Setup;
use places::{Contents, Descriptor};

// Returns the object of the descriptor, if it is a regular file.
fn file_of_descriptor(setup: &Setup, descriptor: Descriptor) -> Option<u32>
    ensures { result ≡ file_of_descriptor setup.now descriptor }
{
    let object = setup.objects.as_slice().get(descriptor.object as usize)?;
    match &object.contents {
        Contents::File(_) => Some(descriptor.object),
        _ => None,
    }
}

fn file_numbered(setup: &Setup, fd: u32) -> Option<u32>
    ensures { result ≡ file_numbered setup.now fd }
{
    if fd < FIRST_DESCRIPTOR {
        return None;
    }
    let descriptor = setup.fds.as_slice().get((fd - FIRST_DESCRIPTOR) as usize)?;
    file_of_descriptor(setup, *descriptor)
}

/// Returns the object number of the regular file that a descriptor refers to, if it does.
pub(crate) fn file_of(setup: &Setup, fd: i32) -> Option<u32>
    ensures { result ≡ file_of setup.now fd }
{
    file_numbered(setup, descriptor_number(fd)?)
}

fn are_one(first: Option<u32>, second: Option<u32>) -> bool
    ensures { result ≡ are_one first second }
{
    match (first, second) {
        (Some(one), Some(other)) => one == other,
        _ => false,
    }
}

/// Returns whether two entries name the same descriptor.
pub(crate) fn is_same_descriptor(first: &Sqe, second: &Sqe) -> bool
    ensures { result ≡ are_one (number_in first.now.fd) (number_in second.now.fd) }
{
    are_one(descriptor_number(first.fd), descriptor_number(second.fd))
}

/// Returns whether two entries name the same file, even by different descriptors.
pub(crate) fn is_same_file(setup: &Setup, first: &Sqe, second: &Sqe) -> bool
    ensures { result ≡ is_same_file setup.now first.now second.now }
{
    are_one(file_of(setup, first.fd), file_of(setup, second.fd))
}
