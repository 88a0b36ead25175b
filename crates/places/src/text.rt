//! The text of a value, as the command `show` prints it.
ghost use Rattle.std.specs.Prelude.{◌≡◌, IfOk, string_bytes};
ghost use Rattle.hex.specs.Hex.{encode_lower};
ghost use Rattle.entries.specs.Layout.{entry_bytes};
ghost use Rattle.places.specs.Text.{completion_text, phase_text, row_text, stage_text, value_text};

use crate::items::Items;
use crate::value::{Stage, Value};
use entries::{Cqe, Phase, Row, Sqe};
use std::alloc::{AllocError, Global};

impl Value {
    /// Returns the value as text. Bytes, entries and completions are in lower-case
    /// hex, numbers in decimal.
    pub fn text(&self, alloc: Global) -> Result<Items<u8>, AllocError>
        ensures { IfOk result (λ text. text ≡ value_text self.now) }
    {
        let text = match self {
            Value::Number(number) => format!(in alloc; "{number}")?,
            Value::Signed(number) => format!(in alloc; "{number}")?,
            Value::Byte(byte) => hex::encode(alloc, &[*byte])?,
            Value::Entry(entry) => entry_of(alloc, entry)?,
            Value::Completed(completion) => completion_of(alloc, completion)?,
            Value::Requested(row) => row_of(alloc, row)?,
            Value::Staged(stage) => stage_of(alloc, stage)?,
            Value::Reaped(None) => format!(in alloc; "none")?,
            Value::Reaped(Some(completion)) => completion_of(alloc, completion)?,
            Value::Awake(true) => format!(in alloc; "awake")?,
            Value::Awake(false) => format!(in alloc; "asleep")?,
        };
        Ok(Items::from_vec(text.into_bytes()))
    }
}

fn entry_of(alloc: Global, entry: &Sqe) -> Result<String, AllocError>
    ensures { IfOk result (λ text. string_bytes text ≡ encode_lower (entry_bytes entry.now)) }
{
    hex::encode(alloc, &entry.write())
}

fn completion_of(alloc: Global, completion: &Cqe) -> Result<String, AllocError>
    ensures { IfOk result (λ text. string_bytes text ≡ completion_text completion.now) }
{
    hex::encode(alloc, &completion.write())
}

fn row_of(alloc: Global, row: &Row) -> Result<String, AllocError>
    ensures { IfOk result (λ text. string_bytes text ≡ row_text row.now) }
{
    let operation = row.entry.opcode;
    let user = row.entry.user_data;
    let unit = row.unit;
    let phase = phase_of(alloc, &row.phase)?;
    format!(in alloc; "op {operation} user {user} unit {unit} {phase}")
}

fn phase_of(alloc: Global, phase: &Phase) -> Result<String, AllocError>
    ensures { IfOk result (λ text. string_bytes text ≡ phase_text phase.now) }
{
    match phase {
        Phase::Queued => format!(in alloc; "queued"),
        Phase::Issued => format!(in alloc; "issued"),
        Phase::Ended(result) => format!(in alloc; "ended {result}"),
    }
}

fn stage_of(alloc: Global, stage: &Stage) -> Result<String, AllocError>
    ensures { IfOk result (λ text. string_bytes text ≡ stage_text stage.now) }
{
    match stage {
        Stage::Ready => format!(in alloc; "ready"),
        Stage::Waiting(submitted, needed) => format!(in alloc; "waiting {submitted} {needed}"),
    }
}
