//! Serving several clients at once, each in its own thread.
ghost use Rattle.std.specs.Prelude.{◌≡◌, ◌∷◌, [], Some, IfOk, IfErr};
ghost use Rattle.crossbeam_channel.specs.Claims.{IsSeatAt};
ghost use Rattle.crossbeam_channel.specs.Ends.{sends_on};
ghost use Rattle.debug_server.specs.Kinds.{IsOf, OfMemory, OfListening};

use crate::permits::{Permit, Permits};
use crate::source::LiveSource;
use crossbeam_channel::Pass;
use debug_server::{RunFault, Session, serve};
use live_runner::Live;
use script::Script;
use std::alloc::Global;
use std::net::{TcpListener, TcpStream};
use std::sync::ledger::Ledger;
use std::sync::{Mutex, Wait};
use std::thread;
use std::thread::{Scope, Threads};

/// The maximum number of clients that are served at once.
const MOST_CLIENTS: usize = 16;

/// Serves each client in its own thread, in a session whose source is the run under the lock. At
/// most 16 are served at once; further clients wait. Returns `sessions` after that many sessions;
/// with `None` it serves forever.
///
/// A session ends with its input, `quit`, a failed read or write, a failed allocation, or a thread
/// that can't be started. Each counts, and none ends another. If accepting fails, the sessions that
/// have started are served to their end first.
pub fn serve_clients<L: Ledger + Send + Sync, R: Threads + Wait + Sync>(
    rt: &R,
    alloc: Global,
    script: &Script,
    listener: &TcpListener,
    lock: &Mutex<Live<L>>,
    sessions: Option<u32>,
) -> Result<u32, RunFault>
    ensures count { IfOk result (λ n. sessions ≡ Some n) }
    ensures other { IfErr result (IsOf (OfMemory ∷ OfListening ∷ [])) }
{
    let Ok((permits, pass)) = Permits::new(rt, alloc, MOST_CLIENTS) else {
        return Err(RunFault::Memory);
    };
    let permits = &permits;
    thread::scope(
        thread::scope_env(),
        rt,
        |scope| -> Result<u32, RunFault>
            requires { IsSeatAt (sends_on permits.now.sender) pass }
            ensures { IfOk result (λ n. sessions ≡ Some n)
                × IfErr result (IsOf (OfMemory ∷ OfListening ∷ [])) }
        {
            accept_all(
                scope, rt, alloc, script, listener, lock, permits, pass, sessions,
            )
        },
    )
}

// Accepts clients, each once a permit is free, and starts a thread for each.
fn accept_all<'s, E, L: Ledger + Send + Sync + 's, R: Wait + Sync + 's>(
    scope: &Scope<'s, E>,
    rt: &'s R,
    alloc: Global,
    script: &'s Script,
    listener: &TcpListener,
    lock: &'s Mutex<Live<L>>,
    permits: &'s Permits,
    mut pass: Pass<Permit, ()>,
    sessions: Option<u32>,
) -> Result<u32, RunFault>
    requires { IsSeatAt (sends_on permits.now.sender) pass }
    ensures count { IfOk result (λ n. sessions ≡ Some n) }
    ensures other { IfErr result (IsOf (OfMemory ∷ OfListening ∷ [])) }
{
    let mut begun: u32 = 0;
    for _client in rt.forever() {
        if sessions == Some(begun) {
            return Ok(begun);
        }
        if !permits.take(rt, &mut pass) {
            return Err(RunFault::Memory);
        }
        let Ok((stream, _)) = listener.accept() else {
            return Err(RunFault::Net);
        };
        start(scope, rt, alloc, script, lock, permits, &mut pass, stream);
        begun = begun.saturating_add(1);
    }
    // `forever` doesn't end.
    unreachable!()
}

// Starts a client's thread. If that fails, the session is over, and its permit is put back.
fn start<'s, E, L: Ledger + Send + Sync + 's, R: Wait + Sync + 's>(
    scope: &Scope<'s, E>,
    rt: &'s R,
    alloc: Global,
    script: &'s Script,
    lock: &'s Mutex<Live<L>>,
    permits: &'s Permits,
    pass: &mut Pass<Permit, ()>,
    stream: TcpStream,
)
    requires { IsSeatAt (sends_on permits.now.sender) pass.old }
    ensures { IsSeatAt (sends_on permits.now.sender) pass.new }
{
    let theirs = permits.another(pass);
    let session = move ||
        requires { IsSeatAt (sends_on permits.now.sender) theirs }
    { attend(rt, alloc, script, lock, permits, theirs, stream) };
    if scope.spawn(session).is_err() {
        permits.put_back(rt, pass);
    }
}

// Serves a client, and then puts its permit back, however the session ended.
fn attend<L: Ledger, R: Wait>(
    rt: &R,
    alloc: Global,
    script: &Script,
    lock: &Mutex<Live<L>>,
    permits: &Permits,
    mut pass: Pass<Permit, ()>,
    stream: TcpStream,
)
    requires { IsSeatAt (sends_on permits.now.sender) pass }
{
    serve_client(rt, alloc, script, lock, &stream);
    drop(stream);
    permits.put_back(rt, &mut pass);
}

// Serves a client's session. Its faults concern only this client, and are ignored.
fn serve_client<L: Ledger, R: Wait>(
    rt: &R,
    alloc: Global,
    script: &Script,
    lock: &Mutex<Live<L>>,
    stream: &TcpStream,
) {
    let mut source = LiveSource { rt, lock };
    let (mut reader, mut writer) = (stream, stream);
    if let Ok(mut session) = Session::live(alloc, script) {
        let _ = serve(&mut session, &mut reader, &mut writer, &mut source);
    }
}
