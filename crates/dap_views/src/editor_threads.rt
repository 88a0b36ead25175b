//! The threads that an editor shows, with their numbers and names.
ghost use Rattle.std.specs.Prelude.{◌≡◌, ◌≤◌, IfOk};
ghost use Rattle.dap_views.specs.Threads.{kernel_id, poller_id, thread_count, thread_id, thread_name, thread_of, threads};

use machine::Setup;
use places::Items;
use std::alloc::{AllocError, Global};
use stops::EditorThread;

/// The most threads of a setup.
const MOST_THREADS: usize = 16;
/// The number of the thread of all events.
const RUN: u64 = 1;
/// The number of the program's first thread.
const FIRST_THREAD: u64 = 2;

fn thread_count(setup: &Setup) -> u32
    ensures count { result ≡ thread_count setup.now }
    ensures few { result ≤ 16 }
{
    setup.threads.len().min(MOST_THREADS) as u32
}

// Returns the number of the poller, if there is one.
fn poller_id(setup: &Setup) -> u64
    ensures { result ≡ poller_id setup.now }
{
    FIRST_THREAD + u64::from(thread_count(setup))
}

fn kernel_id(setup: &Setup) -> u64
    ensures { result ≡ kernel_id setup.now }
{
    if setup.sqpoll {
        poller_id(setup) + 1
    } else {
        poller_id(setup)
    }
}

/// Returns the number of a thread, which is also that of its frame.
pub fn thread_id(setup: &Setup, thread: EditorThread) -> u64
    ensures { result ≡ thread_id setup.now thread }
{
    match thread {
        EditorThread::Run => RUN,
        EditorThread::Thread(number) => FIRST_THREAD + u64::from(number),
        EditorThread::Poller => poller_id(setup),
        EditorThread::Kernel => kernel_id(setup),
    }
}

/// Returns the thread with a number.
#[tactic(auto, unfolding(crate::specs::Threads::thread_of))]
pub fn thread_of(setup: &Setup, id: u64) -> Option<EditorThread>
    ensures { result ≡ thread_of setup.now id }
{
    if id == RUN {
        return Some(EditorThread::Run);
    }
    if FIRST_THREAD <= id && id < poller_id(setup) {
        return Some(EditorThread::Thread((id - FIRST_THREAD) as u32));
    }
    if setup.sqpoll && id == poller_id(setup) {
        return Some(EditorThread::Poller);
    }
    if id == kernel_id(setup) {
        Some(EditorThread::Kernel)
    } else {
        None
    }
}

/// Returns the threads of a setup, in the order of their numbers.
pub fn threads(alloc: Global, setup: &Setup) -> Result<Items<EditorThread>, AllocError>
    ensures { IfOk result (λ list. list ≡ threads setup.now) }
{
    let mut list = Vec::new(alloc);
    list.push(EditorThread::Run)?;
    for number in 0..thread_count(setup) {
        list.push(EditorThread::Thread(number))?;
    }
    if setup.sqpoll {
        list.push(EditorThread::Poller)?;
    }
    list.push(EditorThread::Kernel)?;
    Ok(Items::from_vec(list))
}

/// Returns the name of a thread.
pub fn thread_name(alloc: Global, thread: EditorThread) -> Result<Items<u8>, AllocError>
    ensures { IfOk result (λ text. text ≡ thread_name thread) }
{
    let name = match thread {
        EditorThread::Run => format!(in alloc; "run")?,
        EditorThread::Thread(number) => format!(in alloc; "thread {number}")?,
        EditorThread::Poller => format!(in alloc; "poller")?,
        EditorThread::Kernel => format!(in alloc; "kernel")?,
    };
    Ok(Items::from_vec(name.into_bytes()))
}
