//! A live run whose threads take turns at the same time.
ghost use Rattle.std.specs.Prelude.{◌<◌};

use crate::tests::check;
use live_runner::{Closed, Gate, run_live};
use machine::Setup;
use places::{Place, Value};
use script::read_script;
use std::alloc::Global;
use std::sync::Wait;
use std::sync::atomic::{AtomicU64, Ordering};
use std::thread::Threads;
use std::time::{Clock, Duration};

/// Two threads that store two bytes each.
const FOUR_STORES: &str =
    r#"{"entries":1,"threads":[[["store",0,"aa"],["store",1,"ab"]],[["store",2,"ba"],["store",3,"bb"]]],"schedule":[]}"#;

// A gate at which the first two actors wait for each other in each turn.
#[derive(Drop)]
struct Together {
    first: AtomicU64,
    second: AtomicU64,
}

impl Gate for Together {
    ghost opens = { λ _ _ _. Unit {0} };

    ghost shuts = { λ _ actor _. actor < 2 };

    fn arrive<R: Wait + Clock>(&self, rt: &R, actor: u32, turn: u32) -> bool {
        let (mine, theirs) = match actor {
            0 => (&self.first, &self.second),
            1 => (&self.second, &self.first),
            _ => return true,
        };
        mine.store(turn as u64, Ordering::SeqCst);
        for _try in 0..10000u32 {
            if theirs.load(Ordering::SeqCst) >= turn as u64 {
                return true;
            }
            std::thread::sleep(rt, Duration::from_millis(1));
        }
        false
    }
}

fn has_byte(closed: &Closed, address: u32, byte: u8) -> bool {
    match closed.state().value(Place::MemoryByte(address)) {
        Some(Value::Byte(found)) => found == byte,
        _ => false,
    }
}

fn has_bytes(closed: &Closed) -> bool {
    has_byte(closed, 0, 0xaa)
        && has_byte(closed, 1, 0xab)
        && has_byte(closed, 2, 0xba)
        && has_byte(closed, 3, 0xbb)
}

// Returns whether an actor received two receipts, and both can be redeemed.
fn redeems_two(closed: &Closed, actor: u32) -> bool
    requires { actor < closed.now.actors }
{
    let receipts = closed.receipts(actor);
    receipts.len() == 2
        && receipts
            .iter()
            .all(|receipt| closed.redeem(receipt).is_some())
}

// Returns whether both threads made all their stores, and there are no other events.
fn is_right(closed: &Closed) -> bool {
    closed.actors() == 3
        && closed.events().len() == 4
        && redeems_two(closed, 0)
        && redeems_two(closed, 1)
        && has_bytes(closed)
}

// Runs a setup in threads, and returns whether the result is right.
fn runs<R: Threads + Wait + Clock + Sync>(rt: &R, alloc: Global, setup: &Setup) -> bool {
    let gate = Together {
        first: AtomicU64::new(0),
        second: AtomicU64::new(0),
    };
    match run_live(rt, alloc, setup, 1, 2, &gate) {
        Ok(closed) => is_right(&closed),
        Err(_) => false,
    }
}

#[test]
fn threads_take_turns_side_by_side(rt: HostRuntime) {
    let right = match read_script(rt.alloc(), FOUR_STORES.as_bytes()) {
        Ok(script) => runs(&rt, rt.alloc(), script.setup()),
        Err(_) => false,
    };
    check(&rt, right);
}
