//! Copies of the machine that share what neither has written since.
ghost use Rattle.std.specs.Prelude.{◌≡◌, IfOk};
ghost use Rattle.machine.specs.Sharing.{machine_in};

use crate::threads::Threads;
use crate::whole::Machine;
use links_drains::{SharedTable, Table};
use model_files::{SharedWorld, World};
use overflow::Backlog;
use ring_words::{ComRing, SharedComRing, SharedSubRing, SubRing};
use sqpoll::Poller;
use std::alloc::{AllocError, Global};

/// A copy of a machine. It shares the entries of the rings, the requests, and the bytes of the
/// memory, the files and the pipes. The other parts are its own.
#[derive(Drop)]
pub struct SharedMachine {
    pub submissions: SharedSubRing,
    pub completions: SharedComRing,
    pub backlog: Backlog,
    pub world: SharedWorld,
    pub table: SharedTable,
    pub poller: Option<Poller>,
    pub submit_all: bool,
    pub threads: Threads,
    pub clock: u64,
    pub counted: u32,
}

impl Machine {
    /// Returns a copy. Of what it shares, copies only pages that were written since the last one.
    pub(crate) fn share(&mut self, alloc: Global) -> Result<SharedMachine, AllocError>
        ensures ok { IfOk result (λ copy. machine_in copy ≡ self.old) }
        ensures same { self.new ≡ self.old }
    {
        let rings = self.share_rings(alloc)?;
        let own = copy_unshared(alloc, &self.backlog, &self.threads)?;
        self.share_around(alloc, rings, own)
    }

    // Builds a copy of the machine from these parts and from copies of the others.
    fn share_around(
        &mut self,
        alloc: Global,
        rings: (SharedSubRing, SharedComRing),
        own: (Backlog, Threads),
    ) -> Result<SharedMachine, AllocError>
        requires rings { rings ≡ (self.old.submissions, self.old.completions) }
        requires own { own ≡ (self.old.backlog, self.old.threads) }
        ensures ok { IfOk result (λ copy. machine_in copy ≡ self.old) }
        ensures same { self.new ≡ self.old }
    {
        let requests = self.share_requests(alloc)?;
        Ok(self.shared_with(rings, requests, own))
    }

    // Builds a copy of the machine from these parts. Its other fields are this machine's.
    fn shared_with(
        &self,
        rings: (SharedSubRing, SharedComRing),
        requests: (SharedWorld, SharedTable),
        own: (Backlog, Threads),
    ) -> SharedMachine
        requires rings { rings ≡ (self.now.submissions, self.now.completions) }
        requires requests { requests ≡ (self.now.world, self.now.table) }
        requires own { own ≡ (self.now.backlog, self.now.threads) }
        ensures { machine_in result ≡ self.now }
    {
        SharedMachine {
            submissions: rings.0,
            completions: rings.1,
            backlog: own.0,
            world: requests.0,
            table: requests.1,
            poller: self.poller,
            submit_all: self.submit_all,
            threads: own.1,
            clock: self.clock,
            counted: self.counted,
        }
    }

    fn share_rings(&mut self, alloc: Global) -> Result<(SharedSubRing, SharedComRing), AllocError>
        ensures ok { IfOk result (λ rings. rings ≡ (self.old.submissions, self.old.completions)) }
        ensures same { self.new ≡ self.old }
    {
        let submissions = self.submissions.share(alloc)?;
        let completions = self.completions.share(alloc)?;
        Ok((submissions, completions))
    }

    fn share_requests(&mut self, alloc: Global) -> Result<(SharedWorld, SharedTable), AllocError>
        ensures ok { IfOk result (λ requests. requests ≡ (self.old.world, self.old.table)) }
        ensures same { self.new ≡ self.old }
    {
        let world = self.world.share(alloc)?;
        let table = self.table.share(alloc)?;
        Ok((world, table))
    }
}

impl SharedMachine {
    /// Returns the machine, with storage of its own.
    pub(crate) fn to_machine(&self, alloc: Global) -> Result<Machine, AllocError>
        ensures { IfOk result (λ machine. machine ≡ machine_in self.now) }
    {
        self.build(
            alloc,
            Room {
                submissions: None,
                completions: None,
                world: None,
                table: None,
            },
        )
    }

    /// Returns the machine, in the storage of `room` as far as that fits.
    pub(crate) fn restore(&self, alloc: Global, room: Machine) -> Result<Machine, AllocError>
        ensures { IfOk result (λ machine. machine ≡ machine_in self.now) }
    {
        self.build(alloc, large_parts(room))
    }

    // Returns the machine, in the storage of these parts as far as that fits.
    fn build(&self, alloc: Global, room: Room) -> Result<Machine, AllocError>
        ensures { IfOk result (λ machine. machine ≡ machine_in self.now) }
    {
        let rings = self.rings(alloc, room.submissions, room.completions)?;
        let requests = self.requests(alloc, room.world, room.table)?;
        self.assemble(alloc, rings, requests)
    }

    // Returns the machine of these parts and of copies of the others.
    fn assemble(
        &self,
        alloc: Global,
        rings: (SubRing, ComRing),
        requests: (World, Table),
    ) -> Result<Machine, AllocError>
        requires rings { rings ≡ (self.now.submissions, self.now.completions) }
        requires requests { requests ≡ (self.now.world, self.now.table) }
        ensures { IfOk result (λ machine. machine ≡ machine_in self.now) }
    {
        let own = copy_unshared(alloc, &self.backlog, &self.threads)?;
        Ok(self.with_parts(rings, requests, own))
    }

    // Builds the machine from these parts. Its other fields are this copy's.
    fn with_parts(
        &self,
        rings: (SubRing, ComRing),
        requests: (World, Table),
        own: (Backlog, Threads),
    ) -> Machine
        requires rings { rings ≡ (self.now.submissions, self.now.completions) }
        requires requests { requests ≡ (self.now.world, self.now.table) }
        requires own { own ≡ (self.now.backlog, self.now.threads) }
        ensures { result ≡ machine_in self.now }
    {
        Machine {
            submissions: rings.0,
            completions: rings.1,
            backlog: own.0,
            world: requests.0,
            table: requests.1,
            poller: self.poller,
            submit_all: self.submit_all,
            threads: own.1,
            clock: self.clock,
            counted: self.counted,
        }
    }

    // Returns the rings, in the storage of these as far as that fits.
    fn rings(
        &self,
        alloc: Global,
        submissions: Option<SubRing>,
        completions: Option<ComRing>,
    ) -> Result<(SubRing, ComRing), AllocError>
        ensures { IfOk result (λ rings. rings ≡ (self.now.submissions, self.now.completions)) }
    {
        let submissions = self.submissions.restore(alloc, submissions)?;
        let completions = self.completions.restore(alloc, completions)?;
        Ok((submissions, completions))
    }

    // Returns the world and the table, in the storage of these as far as that fits.
    fn requests(
        &self,
        alloc: Global,
        world: Option<World>,
        table: Option<Table>,
    ) -> Result<(World, Table), AllocError>
        ensures { IfOk result (λ requests. requests ≡ (self.now.world, self.now.table)) }
    {
        let world = self.world.restore(alloc, world)?;
        let table = self.table.restore(alloc, table)?;
        Ok((world, table))
    }
}

// Copies the backlog and the threads, which copies never share.
fn copy_unshared(
    alloc: Global,
    backlog: &Backlog,
    threads: &Threads,
) -> Result<(Backlog, Threads), AllocError>
    ensures { IfOk result (λ parts. parts ≡ (backlog.now, threads.now)) }
{
    let backlog = backlog.copy(alloc)?;
    let threads = threads.copy(alloc)?;
    Ok((backlog, threads))
}

// The parts of a machine that a copy is restored in.
#[derive(Drop)]
struct Room {
    submissions: Option<SubRing>,
    completions: Option<ComRing>,
    world: Option<World>,
    table: Option<Table>,
}

// Takes the large parts of a machine, and drops the others.
fn large_parts(machine: Machine) -> Room {
    let Machine {
        submissions,
        completions,
        backlog: _backlog,
        world,
        table,
        poller: _,
        submit_all: _,
        threads: _threads,
        clock: _,
        counted: _,
    } = machine;
    Room {
        submissions: Some(submissions),
        completions: Some(completions),
        world: Some(world),
        table: Some(table),
    }
}
