//! The fields of a request.
ghost use Rattle.std.specs.Prelude.{◌≡◌, IfOk, decimal, string_bytes};
ghost use Rattle.std.specs.Fmt.{signed_decimal};
ghost use Rattle.places.specs.Text.{phase_text};
ghost use Rattle.dap_variables.specs.Requests.{field_name, field_text};

use entries::{Phase, Row};
use places::Items;
use std::alloc::{AllocError, Global};

/// A field of a request: of its entry (io_uring_enter(2)), its chain, or its phase.
#[derive(Clone, Copy, PartialEq, Eq)]
pub enum RequestField {
    Opcode,
    Flags,
    Descriptor,
    Offset,
    Address,
    Length,
    OperationFlags,
    UserData,
    /// The number of the first request of its chain.
    Chain,
    Phase,
}

impl RequestField {
    /// Returns its name, as the manual page spells it.
    pub(crate) fn name(self) -> &'static str
        ensures { result.now ≡ field_name self }
    {
        match self {
            RequestField::Opcode => "opcode",
            RequestField::Flags => "flags",
            RequestField::Descriptor => "fd",
            RequestField::Offset => "off",
            RequestField::Address => "addr",
            RequestField::Length => "len",
            RequestField::OperationFlags => "op_flags",
            RequestField::UserData => "user_data",
            RequestField::Chain => "unit",
            RequestField::Phase => "phase",
        }
    }
}

fn phase_text(alloc: Global, phase: Phase) -> Result<String, AllocError>
    ensures { IfOk result (λ text. string_bytes text ≡ phase_text phase) }
{
    match phase {
        Phase::Queued => format!(in alloc; "queued"),
        Phase::Issued => format!(in alloc; "issued"),
        Phase::Ended(result) => format!(in alloc; "ended {result}"),
    }
}

/// Returns the text of a field.
pub(crate) fn field_text(
    alloc: Global,
    field: RequestField,
    row: &Row,
) -> Result<Items<u8>, AllocError>
    ensures { IfOk result (λ text. text ≡ field_text field row.now) }
{
    let entry = row.entry;
    let text = match field {
        RequestField::Opcode => number_text(alloc, u64::from(entry.opcode))?,
        RequestField::Flags => number_text(alloc, u64::from(entry.flags))?,
        RequestField::Descriptor => signed_text(alloc, entry.fd)?,
        RequestField::Offset => number_text(alloc, entry.off)?,
        RequestField::Address => number_text(alloc, entry.addr)?,
        RequestField::Length => number_text(alloc, u64::from(entry.len))?,
        RequestField::OperationFlags => number_text(alloc, u64::from(entry.operation_flags))?,
        RequestField::UserData => number_text(alloc, entry.user_data)?,
        RequestField::Chain => number_text(alloc, u64::from(row.unit))?,
        RequestField::Phase => phase_text(alloc, row.phase)?,
    };
    Ok(Items::from_vec(text.into_bytes()))
}

fn number_text(alloc: Global, number: u64) -> Result<String, AllocError>
    ensures { IfOk result (λ text. string_bytes text ≡ decimal number) }
{
    format!(in alloc; "{number}")
}

fn signed_text(alloc: Global, number: i32) -> Result<String, AllocError>
    ensures { IfOk result (λ text. string_bytes text ≡ signed_decimal number) }
{
    format!(in alloc; "{number}")
}
