//! Equality of setups.
ghost use Rattle.std.specs.Prelude.{◌≡◌, ◌↔◌, IsTrue};

use crate::setup::{Instruction, Setup};
use places::{Contents, Descriptor, Items, Object};

impl Setup {
    /// Returns whether two setups are equal. Allocates nothing.
    pub fn equals(&self, other: &Setup) -> bool
        ensures { IsTrue result ↔ (self.now ≡ other.now) }
    {
        if !self.has_numbers_of(other) || self.memory.as_slice() != other.memory.as_slice() {
            return false;
        }
        if !are_same_objects(self.objects.as_slice(), other.objects.as_slice()) {
            return false;
        }
        if !are_same_descriptors(self.fds.as_slice(), other.fds.as_slice()) {
            return false;
        }
        are_same_threads(self.threads.as_slice(), other.threads.as_slice())
    }

    // Returns whether two setups have the same sizes, flags and base.
    fn has_numbers_of(&self, other: &Setup) -> bool
        ensures { IsTrue result
            ↔ ((self.now.entries ≡ other.now.entries) × (self.now.cq ≡ other.now.cq)
            × (self.now.sqpoll ≡ other.now.sqpoll) × (self.now.submit_all ≡ other.now.submit_all)
            × (self.now.base ≡ other.now.base)) }
    {
        if self.entries != other.entries || self.base != other.base {
            return false;
        }
        if self.sqpoll != other.sqpoll || self.submit_all != other.submit_all {
            return false;
        }
        self.cq == other.cq
    }
}

impl Instruction {
    /// Returns whether two instructions are equal.
    pub fn equals(&self, other: &Instruction) -> bool
        ensures { IsTrue result ↔ (self.now ≡ other.now) }
    {
        match (self, other) {
            (Instruction::Put(slot, entry), Instruction::Put(place, data)) => {
                slot == place && entry.equals(data)
            }
            (Instruction::Push(index), Instruction::Push(number)) => index == number,
            (Instruction::Store(address, bytes), Instruction::Store(place, data)) => {
                address == place && bytes.as_slice() == data.as_slice()
            }
            (
                Instruction::Enter {
                    to_submit,
                    min_complete,
                    flags,
                },
                Instruction::Enter {
                    to_submit: count,
                    min_complete: least,
                    flags: bits,
                },
            ) => to_submit == count && min_complete == least && flags == bits,
            (Instruction::Reap, Instruction::Reap) => true,
            (Instruction::Close(fd), Instruction::Close(number)) => fd == number,
            _ => false,
        }
    }
}

fn are_same_threads(xs: &[Items<Instruction>], ys: &[Items<Instruction>]) -> bool
    ensures { IsTrue result ↔ (xs.now ≡ ys.now) }
{
    if xs.len() != ys.len() {
        return false;
    }
    for i in 0..xs.len() {
        if !are_same_programs(xs[i].as_slice(), ys[i].as_slice()) {
            return false;
        }
    }
    true
}

fn are_same_programs(xs: &[Instruction], ys: &[Instruction]) -> bool
    ensures { IsTrue result ↔ (xs.now ≡ ys.now) }
{
    if xs.len() != ys.len() {
        return false;
    }
    for i in 0..xs.len() {
        if !xs[i].equals(&ys[i]) {
            return false;
        }
    }
    true
}

fn are_same_objects(xs: &[Object], ys: &[Object]) -> bool
    ensures { IsTrue result ↔ (xs.now ≡ ys.now) }
{
    if xs.len() != ys.len() {
        return false;
    }
    for i in 0..xs.len() {
        if !is_same_object(&xs[i], &ys[i]) {
            return false;
        }
    }
    true
}

fn is_same_object(x: &Object, y: &Object) -> bool
    ensures { IsTrue result ↔ (x.now ≡ y.now) }
{
    x.name.as_slice() == y.name.as_slice() && are_same_contents(&x.contents, &y.contents)
}

fn are_same_contents(x: &Contents, y: &Contents) -> bool
    ensures { IsTrue result ↔ (x.now ≡ y.now) }
{
    match (x, y) {
        (Contents::File(bytes), Contents::File(data)) => bytes.as_slice() == data.as_slice(),
        (Contents::Pipe(capacity), Contents::Pipe(size)) => capacity == size,
        (Contents::EventFd(counter), Contents::EventFd(number)) => counter == number,
        _ => false,
    }
}

fn are_same_descriptors(xs: &[Descriptor], ys: &[Descriptor]) -> bool
    ensures { IsTrue result ↔ (xs.now ≡ ys.now) }
{
    if xs.len() != ys.len() {
        return false;
    }
    for i in 0..xs.len() {
        if xs[i] != ys[i] {
            return false;
        }
    }
    true
}
