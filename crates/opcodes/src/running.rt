//! Which issued requests are running, and which are waiting (io_uring_enter(2)).
ghost use Rattle.std.specs.Prelude.{◌≡◌};
ghost use Rattle.opcodes.specs.Opcodes.{always_runs, runs_on_file};
ghost use Rattle.opcodes.specs.Outcomes.{is_file, is_running};

use crate::results::{held_descriptor, stock_at};
use entries::Row;
use model_files::{Stock, World};

/// Returns whether an issued request is running, so that a cancel finds it but can't stop it. Other
/// issued requests wait: for a pipe or an eventfd, for a poll event, or for the clock.
pub fn is_running(world: &World, row: &Row) -> bool
    ensures { result ≡ is_running world.now row.now }
{
    let opcode = row.entry.opcode;
    if always_runs(opcode) {
        return true;
    }
    runs_on_file(opcode) && is_file(stock_at(world, held_descriptor(world, row)))
}

fn always_runs(opcode: u8) -> bool
    ensures { result ≡ always_runs opcode }
{
    opcode == 0 || opcode == 3 || opcode == 7 || opcode == 12 || opcode == 14
}

fn runs_on_file(opcode: u8) -> bool
    ensures { result ≡ runs_on_file opcode }
{
    opcode == 22 || opcode == 23
}

fn is_file(stock: Option<Stock>) -> bool
    ensures { result ≡ is_file stock }
{
    matches!(stock, Some(Stock::File(_)))
}
