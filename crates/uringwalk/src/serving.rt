//! The `serve` subcommand: answers clients of a run while threads make it.
ghost use Rattle.std.specs.Prelude.{◌≤◌};

use crate::{SCRIPT_AND_ONE, file_fault};
use clients::serve_live;
use debug_server::{Fault, RunFault, ServeFault, script_of};
use script::Script;
use std::net::{Ipv4Addr, Net, TcpListener, TcpStream};
use std::rt::Files;
use std::sync::Wait;
use std::thread::Threads;
use std::time::Clock;
use whole_files::read_file;

// Listens on a port of loopback.
fn listen(
    rt: &impl Net<Listener = TcpListener, Stream = TcpStream>,
    port: u16,
) -> Result<TcpListener, Fault> {
    match TcpListener::bind(rt, (Ipv4Addr::LOCALHOST, port)) {
        Ok(listener) => Ok(listener),
        Err(_) => Err(Fault::Run(RunFault::Net)),
    }
}

// Prints the port. Standard output has no buffer, so a reader has the line once this returns.
fn print_port(rt: &impl Print, port: u16) -> Result<(), Fault> {
    match println!(rt; "port {port}") {
        Ok(()) => Ok(()),
        Err(_) => Err(Fault::Run(RunFault::Serve(ServeFault::Write))),
    }
}

// Listens, prints the port, and answers the clients of a script's run.
fn serve_script<
    R: Print
        + AllocGlobal
        + Threads
        + Wait
        + Clock
        + Net<Listener = TcpListener, Stream = TcpStream>
        + Sync,
>(
    rt: &R,
    script: &Script,
    port: u16,
    turns: u32,
    kernel: u32,
    clients: Option<u32>,
) -> Result<(), Fault>
    requires { kernel ≤ 8 }
{
    let listener = listen(rt, port)?;
    print_port(rt, port)?;
    match serve_live(rt, rt.alloc(), script, &listener, turns, kernel, clients) {
        Ok(_closed) => Ok(()),
        Err(fault) => Err(fault),
    }
}

/// Listens on a port of loopback, prints it, and answers clients while threads run a script. Ends
/// once `clients` sessions and the run have ended; with no such number it continues until killed.
pub fn serve_file<
    R: Files
        + Print
        + AllocGlobal
        + Threads
        + Wait
        + Clock
        + Net<Listener = TcpListener, Stream = TcpStream>
        + Sync,
>(
    rt: &R,
    script: &str,
    port: u16,
    turns: u32,
    kernel: u32,
    clients: Option<u32>,
) -> Result<(), Fault>
    requires { kernel ≤ 8 }
{
    let text = read_file(rt, script, SCRIPT_AND_ONE).map_err(file_fault)?;
    match script_of(rt.alloc(), &text) {
        Ok(script) => serve_script(rt, &script, port, turns, kernel, clients),
        Err(fault) => Err(Fault::Run(fault)),
    }
}
