//! Notes of slots of the completion ring.

use crate::notes::slots::{Slotted, differs};
use crate::packing::changes::{COMPLETION, put_framed};
use crate::packing::values::completion_numbers;
use crate::part::At;
use crate::place::Place;
use crate::value::{Change, Value};
use entries::Cqe;
use std::alloc::AllocError;

/// A slot of the completion ring with its old completion.
#[derive(Clone, Copy)]
pub struct CompletionNote {
    pub slot: u32,
    pub old: Cqe,
}

impl Slotted for CompletionNote {
    ghost use Rattle.places.specs.Slots.{completion_slot_of, completion_change};
    ghost use Rattle.places.specs.SlotLaws.{one_completion, one_completion_slot};

    ghost slot = { completion_slot_of };

    ghost change = { completion_change };

    ghost one_place = { one_completion };

    ghost one_slot = { one_completion_slot };

    fn slot(&self) -> usize {
        self.slot as usize
    }

    fn place(&self) -> Place {
        Place::Completion(self.slot)
    }

    fn change(&self) -> Change {
        Change {
            place: self.place(),
            old: Some(Value::Completed(self.old)),
        }
    }

    fn pack(&self, out: &mut Vec<u8>) -> Result<(), AllocError> {
        put_framed(
            out,
            self.place(),
            self.slot,
            COMPLETION,
            &completion_numbers(self.old),
        )?;
        Ok(())
    }

    fn differs<A: At>(&self, whole: &A) -> bool {
        match whole.completion_at(self.slot) {
            Some(now) => !now.equals(&self.old),
            None => differs(self.change(), whole),
        }
    }
}
