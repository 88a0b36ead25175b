//! Breakpoints in the arguments of requests.
ghost use Rattle.std.specs.Prelude.{◌≡◌, Some};
ghost use Rattle.serde_json.specs.View.{view};
ghost use Rattle.dap_messages.specs.Arguments.{exception_filter, data_breakpoint, function_breakpoint, instruction_breakpoint, source_breakpoint};
ghost use Rattle.dap_messages.specs.Faults.{Gives};
ghost use Rattle.dap_messages.specs.Views.{data_in};

use crate::fault::RequestFault;
use crate::field::Field;
use crate::found::Found;
use crate::items::Item;
use crate::request::{
    DataBreakpoint, ExceptionFilter, FunctionBreakpoint, InstructionBreakpoint, SourceBreakpoint,
};
use crate::words::exception_filter_named;
use serde_json::Value;
use std::alloc::Global;

impl Item for SourceBreakpoint {
    ghost reads = { λ d. source_breakpoint (Some d) };

    fn read(alloc: Global, value: &Value) -> Result<SourceBreakpoint, RequestFault> {
        let found = Found::new(value);
        let line = found.whole(Field::Line)?;
        let column = found.whole_if_any(Field::Column)?;
        let condition = found.text_if_any(alloc, Field::Condition)?;
        Ok(SourceBreakpoint {
            line,
            column,
            condition,
        })
    }
}

impl Item for DataBreakpoint {
    ghost reads = { λ d. data_breakpoint (Some d) };

    fn read(alloc: Global, value: &Value) -> Result<DataBreakpoint, RequestFault> {
        let found = Found::new(value);
        let data = found.text(alloc, Field::DataId)?;
        let condition = found.text_if_any(alloc, Field::Condition)?;
        Ok(DataBreakpoint { data, condition })
    }
}

impl Item for FunctionBreakpoint {
    ghost reads = { λ d. function_breakpoint (Some d) };

    fn read(alloc: Global, value: &Value) -> Result<FunctionBreakpoint, RequestFault> {
        let found = Found::new(value);
        let name = found.text(alloc, Field::Name)?;
        let condition = found.text_if_any(alloc, Field::Condition)?;
        Ok(FunctionBreakpoint { name, condition })
    }
}

impl Item for InstructionBreakpoint {
    ghost reads = { λ d. instruction_breakpoint (Some d) };

    fn read(alloc: Global, value: &Value) -> Result<InstructionBreakpoint, RequestFault> {
        let found = Found::new(value);
        let reference = found.text(alloc, Field::InstructionReference)?;
        let offset = found.integer_or_zero(Field::Offset)?;
        let condition = found.text_if_any(alloc, Field::Condition)?;
        Ok(InstructionBreakpoint {
            reference,
            offset,
            condition,
        })
    }
}

impl Item for ExceptionFilter {
    ghost reads = { exception_filter };

    fn read(_alloc: Global, value: &Value) -> Result<ExceptionFilter, RequestFault> {
        match value.as_str() {
            Some(word) => {
                exception_filter_named(word).ok_or(RequestFault::BadArgument(Field::Filters))
            }
            None => Err(RequestFault::BadArgument(Field::Filters)),
        }
    }
}
