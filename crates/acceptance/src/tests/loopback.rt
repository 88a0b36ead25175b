//! Clients over loopback, with both ends in one process.
ghost use Rattle.std.specs.Prelude.{◌≡◌};
ghost use Rattle.live_runner.specs.Actors.{actors};

use crate::tests::check;
use clients::serve_clients;
use live_runner::{Live, Seat, actors};
use machine::Event;
use script::{Script, read_script};
use std::alloc::Global;
use std::io::{Read, Write};
use std::marker::Brand;
use std::net::{Net, SocketAddr, TcpListener, TcpStream};
use std::sync::ledger::{Blank, Ledger};
use std::sync::{Mutex, Wait};
use std::thread::Threads;
use std::{io, thread};

/// A thread with two stores, and a schedule that would be refused.
const TWO_STORES: &str =
    r#"{"entries":1,"threads":[[["store",0,"aa"],["store",1,"bb"]]],"schedule":[["issue",0],["step",0]]}"#;

/// The number of the run's kernel workers.
const WORKERS: u32 = 1;

// Returns whether the next bytes of the stream are these.
fn is_next(mut stream: &TcpStream, expected: &[u8]) -> bool {
    for byte in expected {
        let mut next = [0u8];
        if stream.read_exact(&mut next).is_err() || next[0] != *byte {
            return false;
        }
    }
    true
}

// Sends lines, and returns whether the replies are these.
fn answers(mut stream: &TcpStream, lines: &str, replies: &str) -> bool {
    stream.write_all(lines.as_bytes()).is_ok() && is_next(stream, replies.as_bytes())
}

// Returns whether the thread makes its next step, under one hold of the lock.
fn steps<L: Ledger, R: Wait>(rt: &R, lock: &Mutex<Live<L>>, seats: &mut Vec<Seat<L>>) -> bool {
    match seats.first_mut() {
        Some(seat) => lock.lock(rt).attempt(seat, Event::Step(0)).is_ok(),
        None => false,
    }
}

// Two clients inspect one run at once, which makes an event meanwhile. The first client's second
// `sync` adds it; the second client doesn't sync again, and doesn't see it.
fn are_answered<L: Ledger, R: Wait>(
    rt: &R,
    first: &TcpStream,
    second: &TcpStream,
    lock: &Mutex<Live<L>>,
    seats: &mut Vec<Seat<L>>,
) -> bool {
    answers(first, "sync\n", "synced 0\n")
        && answers(second, "sync\nwhere\n", "synced 0\nat 0 of 0\n")
        && steps(rt, lock, seats)
        && answers(
            first,
            "sync\ngoto 1\nshow mem 0\n",
            "synced 1\nat 1 of 1\naa\n",
        )
        && answers(second, "where\nquit\n", "at 0 of 0\nbye\n")
        && answers(first, "quit\n", "bye\n")
}

// Connects both clients.
fn connect_two<L: Ledger, R: Net<Listener = TcpListener, Stream = TcpStream> + Wait>(
    rt: &R,
    address: SocketAddr,
    lock: &Mutex<Live<L>>,
    mut seats: Vec<Seat<L>>,
) -> bool {
    match (
        TcpStream::connect(rt, address),
        TcpStream::connect(rt, address),
    ) {
        (Ok(first), Ok(second)) => are_answered(rt, &first, &second, lock, &mut seats),
        _ => false,
    }
}

// Serves two clients, and returns their number and whether their replies were right.
fn serve_two<
    L: Ledger + Send + Sync,
    R: Net<Listener = TcpListener, Stream = TcpStream> + Threads + Wait + Sync,
>(
    rt: &R,
    alloc: Global,
    blank: Blank,
    script: &Script,
    listener: &TcpListener,
    address: SocketAddr,
) -> Option<(u32, bool)>
    requires name { blank.name ≡ L.name }
    requires parts { blank.parts ≡ L.parts }
    requires all { blank.parts ≡ actors script.now.setup 1 }
{
    let Ok((live, seats)) = Live::<L>::open(alloc, blank, script.setup(), WORKERS) else {
        return None;
    };
    let lock = Mutex::new(live);
    let (served, written) = thread::join(
        rt,
        || serve_clients(rt, alloc, script, listener, &lock, Some(2)),
        || connect_two(rt, address, &lock, seats),
    );
    match served {
        Ok(count) => Some((count, written)),
        Err(_) => None,
    }
}

// Does the same with a new ledger.
fn serve_both<R: Net<Listener = TcpListener, Stream = TcpStream> + Threads + Wait + Sync>(
    rt: &R,
    alloc: Global,
    script: &Script,
    listener: &TcpListener,
    address: SocketAddr,
) -> Option<(u32, bool)> {
    let blank = Blank::new(actors(script.setup(), WORKERS) as u64);
    serve_two::<Brand, R>(rt, alloc, blank, script, listener, address)
}

#[test]
fn two_clients_look_at_one_run(rt: HostRuntime) -> io::Result<()> {
    let listener = TcpListener::bind(&rt, "127.0.0.1:0")?;
    let address = listener.local_addr()?;
    let outcome = match read_script(rt.alloc(), TWO_STORES.as_bytes()) {
        Ok(script) => serve_both(&rt, rt.alloc(), &script, &listener, address),
        Err(_) => None,
    };
    check(&rt, outcome == Some((2, true)));
    Ok(())
}
