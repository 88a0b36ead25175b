//! Members that are one of some words.
ghost use Rattle.std.specs.Prelude.{◌≡◌};
ghost use Rattle.dap_messages.specs.Arguments.{context_at, filter_at, granularity_at, uris_at};
ghost use Rattle.dap_messages.specs.Views.{data_in};
ghost use Rattle.dap_messages.specs.Words.{context_named, exception_filter_named, filter_named, granularity_named, is_uri};

use crate::fault::RequestFault;
use crate::field::Field;
use crate::found::Found;
use crate::request::{Context, ExceptionFilter, Filter, Granularity};

fn is_uri(word: &str) -> bool
    ensures { result ≡ is_uri word.now }
{
    word == "uri"
}

fn granularity_named(word: &str) -> Option<Granularity>
    ensures { result ≡ granularity_named word.now }
{
    match word {
        "statement" => Some(Granularity::Statement),
        "line" => Some(Granularity::Line),
        "instruction" => Some(Granularity::Instruction),
        _ => None,
    }
}

fn filter_named(word: &str) -> Option<Filter>
    ensures { result ≡ filter_named word.now }
{
    match word {
        "named" => Some(Filter::Named),
        "indexed" => Some(Filter::Indexed),
        _ => None,
    }
}

fn context_named(word: &str) -> Context
    ensures { result ≡ context_named word.now }
{
    match word {
        "watch" => Context::Watch,
        "hover" => Context::Hover,
        "repl" => Context::Repl,
        _ => Context::Other,
    }
}

/// Returns the filter with a name.
pub fn exception_filter_named(word: &str) -> Option<ExceptionFilter>
    ensures { result ≡ exception_filter_named word.now }
{
    match word {
        "faults" => Some(ExceptionFilter::Faults),
        "notes" => Some(ExceptionFilter::Notes),
        _ => None,
    }
}

/// Reads whether paths are URIs.
pub fn uris_at(object: &Found<'_>) -> Result<bool, RequestFault>
    ensures { result ≡ uris_at (data_in object.now) }
{
    let Some(value) = object.member(Field::PathFormat).get() else {
        return Ok(false);
    };
    match value.as_str() {
        Some(word) => Ok(is_uri(word)),
        None => Err(RequestFault::BadArgument(Field::PathFormat)),
    }
}

/// Reads the granularity of a step.
pub fn granularity_at(object: &Found<'_>) -> Result<Granularity, RequestFault>
    ensures { result ≡ granularity_at (data_in object.now) }
{
    let Some(value) = object.member(Field::Granularity).get() else {
        return Ok(Granularity::Statement);
    };
    match value.as_str() {
        Some(word) => {
            granularity_named(word).ok_or(RequestFault::BadArgument(Field::Granularity))
        }
        None => Err(RequestFault::BadArgument(Field::Granularity)),
    }
}

/// Reads which children of a container are requested.
pub fn filter_at(object: &Found<'_>) -> Result<Filter, RequestFault>
    ensures { result ≡ filter_at (data_in object.now) }
{
    let Some(value) = object.member(Field::Filter).get() else {
        return Ok(Filter::All);
    };
    match value.as_str() {
        Some(word) => filter_named(word).ok_or(RequestFault::BadArgument(Field::Filter)),
        None => Err(RequestFault::BadArgument(Field::Filter)),
    }
}

/// Reads where an expression is evaluated.
pub fn context_at(object: &Found<'_>) -> Result<Context, RequestFault>
    ensures { result ≡ context_at (data_in object.now) }
{
    let Some(value) = object.member(Field::Context).get() else {
        return Ok(Context::Other);
    };
    match value.as_str() {
        Some(word) => Ok(context_named(word)),
        None => Err(RequestFault::BadArgument(Field::Context)),
    }
}
