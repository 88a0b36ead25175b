//! Breakpoints as responses describe them.

use crate::base::Base;
use crate::lines::Located;
use crate::members::Members;
use serde_json::Value;
use std::alloc::{AllocError, Global};

/// Returns a breakpoint without a position.
pub(crate) fn verified(alloc: Global) -> Result<Value, AllocError> {
    let mut members = Members::new(alloc);
    members.flag("verified", true)?;
    Ok(members.finish())
}

/// Returns a breakpoint that can't be set, and why.
pub(crate) fn unverified(alloc: Global, message: &str) -> Result<Value, AllocError> {
    let mut members = Members::new(alloc);
    members.flag("verified", false)?;
    members.text("message", message)?;
    Ok(members.finish())
}

/// Adds where an item is.
pub(crate) fn add_range(
    members: &mut Members,
    base: Base,
    located: Located,
) -> Result<(), AllocError> {
    members.number("line", base.line(located.start.line))?;
    members.number("column", base.column(located.start.column))?;
    members.number("endLine", base.line(located.end.line))?;
    members.number("endColumn", base.column(located.end.column))
}

/// Returns a breakpoint on an item of the source.
pub(crate) fn verified_at(
    alloc: Global,
    base: Base,
    located: Located,
) -> Result<Value, AllocError> {
    let mut members = Members::new(alloc);
    members.flag("verified", true)?;
    add_range(&mut members, base, located)?;
    Ok(members.finish())
}
