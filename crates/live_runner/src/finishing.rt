//! Closing a run of workers.
ghost use Rattle.std.specs.Prelude.{◌≡◌, ◌+◌, ◌≤◌, [], length, IfOk, IfErr, OnOk};
ghost use Rattle.live_states.specs.Received.{AllReceived, LeastTorn};
ghost use Rattle.live_states.specs.History.{closed_of};
ghost use Rattle.live_runner.specs.History.{all_receipts, WorkInOrder, receipt_count};

use crate::worker::{Gate, Worker};
use live_states::{Closed, Closing, Live, Torn};
use std::sync::ledger::Ledger;

/// Closes a run after all its actors have stopped. Allocates no memory.
pub fn finish<'g, L: Ledger, G: Gate>(
    live: Live<L>,
    workers: Vec<Worker<'g, L, G>>,
) -> Result<Closed, Torn>
    requires actors { length workers.items ≡ live.actors }
    requires order { WorkInOrder workers.items }
    ensures count { receipt_count workers.entry.items ≡ length live.events }
    ensures closed { IfOk result (λ c. c ≡ closed_of live (all_receipts workers.entry.items)) }
    ensures whole { OnOk result
        (AllReceived live.owners live.events (all_receipts workers.entry.items)) }
    ensures torn { IfErr result
        (λ t. LeastTorn live.owners live.events (all_receipts workers.entry.items) t.0) }
{
    let mut closing = Closing::new(live);
    give_all_back(&mut closing, workers);
    closing.close()
}

// Gives back the seats of all workers, in the workers' order.
fn give_all_back<'g, L: Ledger, G: Gate>(closing: &mut Closing<L>, workers: Vec<Worker<'g, L, G>>)
    requires none { closing.old.lists ≡ [] }
    requires room { length workers.items ≤ closing.old.run.actors }
    ensures run { closing.new.run ≡ closing.old.run }
    ensures lists { closing.new.lists ≡ all_receipts workers.entry.items }
    ensures amount { closing.new.amount ≡ closing.old.amount + receipt_count workers.entry.items }
{
    for worker in workers {
        closing.give_back(worker.into_seat());
    }
}
