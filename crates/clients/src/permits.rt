//! Permits, which limit how many clients are served at once.
ghost use Rattle.std.specs.Prelude.{◌≡◌, ◌<◌, IfOk};
ghost use Rattle.crossbeam_channel.specs.Claims.{IsSeatAt};
ghost use Rattle.crossbeam_channel.specs.Ends.{sends_on, receives_on};

use crossbeam_channel::protocol::{Free, Split};
use crossbeam_channel::{Pass, RuledReceiver, RuledSender, bounded_with};
use std::alloc::{AllocError, Global};
use std::sync::Wait;

/// The permission to serve one client.
#[derive(Clone, Copy)]
pub struct Permit;

/// The permits that no client holds, in a queue.
#[derive(Drop)]
pub struct Permits {
    sender: RuledSender<Permit, (), Free>,
    receiver: RuledReceiver<Permit, (), Free>,
    ghost same: { receives_on receiver ≡ sends_on sender },
}

/// How a pass to the queue is split: a permit carries no facts.
pub struct Cut;

impl Split<()> for Cut {
    ghost left = { λ v. v };

    ghost right = { λ v. v };
}

impl Permits {
    /// Creates a queue of `count` permits, and the first pass to it.
    pub fn new<R: Wait>(
        rt: &R,
        alloc: Global,
        count: usize,
    ) -> Result<(Permits, Pass<Permit, ()>), AllocError>
        requires { 0 < count }
        ensures { IfOk result (λ r. IsSeatAt (sends_on r.0.sender) r.1) }
    {
        let (sender, receiver, mut pass) = bounded_with::<Permit, (), Free, Global>(alloc, count)?;
        for _permit in 0..count {
            let _ = sender.send_as::<Free, R>(rt, &mut pass, Permit);
        }
        Ok((Permits { sender, receiver }, pass))
    }

    /// Creates another pass to the queue, for another thread.
    pub fn another(&self, pass: &mut Pass<Permit, ()>) -> Pass<Permit, ()>
        requires { IsSeatAt (sends_on self.now.sender) pass.old }
        ensures old { IsSeatAt (sends_on self.now.sender) pass.new }
        ensures new { IsSeatAt (sends_on self.now.sender) result }
    {
        self.sender.another::<Cut>(pass)
    }

    /// Waits for a permit and removes it from the queue. Returns false if the queue is closed.
    pub fn take<R: Wait>(&self, rt: &R, pass: &mut Pass<Permit, ()>) -> bool
        requires { IsSeatAt (sends_on self.now.sender) pass.old }
        ensures { IsSeatAt (sends_on self.now.sender) pass.new }
    {
        self.receiver.recv_as::<Free, R>(rt, pass).is_ok()
    }

    /// Puts a permit back into the queue.
    pub fn put_back<R: Wait>(&self, rt: &R, pass: &mut Pass<Permit, ()>)
        requires { IsSeatAt (sends_on self.now.sender) pass.old }
        ensures { IsSeatAt (sends_on self.now.sender) pass.new }
    {
        let _ = self.sender.send_as::<Free, R>(rt, pass, Permit);
    }
}
