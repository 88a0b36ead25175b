//! JSON values that may be missing, and their members.
ghost use Rattle.std.specs.Prelude.{◌≡◌, None, Some, option_map, pos};
ghost use Rattle.serde_json.specs.Find.{as_bool, as_str};
ghost use Rattle.serde_json.specs.View.{view};
ghost use Rattle.dap_messages.specs.Faults.{Gives};
ghost use Rattle.dap_messages.specs.Views.{data_in};
ghost use Rattle.dap_messages.specs.Values.{given, integer_of, member_of, needed, present, whole_of};

use crate::fault::RequestFault;
use crate::field::Field;
use crate::text::Text;
use serde_json::Value;
use std::alloc::Global;

/// A JSON value that may be missing.
#[derive(Drop)]
pub struct Found<'a> {
    value: Option<&'a Value>,
}

// Counts null as missing.
fn present(found: Option<&Value>) -> Option<&Value>
    ensures { option_map (λ v. view v.now) result
        ≡ present (option_map (λ v. view v.now) found.entry) }
{
    match found {
        Some(value) => if value.is_null() { None } else { Some(value) },
        None => None,
    }
}

impl<'a> Found<'a> {
    /// Wraps a value.
    pub fn new(value: &'a Value) -> Found<'a>
        ensures { data_in result ≡ Some (view value.now) }
    {
        Found { value: Some(value) }
    }

    /// Returns the value, if there is one.
    pub fn get(&self) -> Option<&'a Value>
        ensures { option_map (λ v. view v.now) result ≡ data_in self.now }
    {
        self.value
    }

    /// Returns a member of the value.
    #[tactic(auto, unfolding(crate::specs::Values::member_of))]
    pub fn member(&self, field: Field) -> Found<'a>
        ensures { data_in result ≡ member_of field (data_in self.now) }
    {
        let found = match self.value {
            Some(value) => value.get(field.name()),
            None => None,
        };
        Found {
            value: present(found),
        }
    }

    /// Reads a required whole number.
    pub fn whole(&self, field: Field) -> Result<u64, RequestFault>
        ensures { result ≡ needed whole_of field (data_in self.now) }
    {
        match self.member(field).get() {
            Some(value) => value.as_u64().ok_or(RequestFault::BadArgument(field)),
            None => Err(RequestFault::BadArgument(field)),
        }
    }

    /// Reads an optional whole number.
    pub fn whole_or(&self, field: Field, default: u64) -> Result<u64, RequestFault>
        ensures { result ≡ given default whole_of field (data_in self.now) }
    {
        match self.member(field).get() {
            Some(value) => value.as_u64().ok_or(RequestFault::BadArgument(field)),
            None => Ok(default),
        }
    }

    /// Reads an optional whole number, which may be missing.
    pub fn whole_if_any(&self, field: Field) -> Result<Option<u64>, RequestFault>
        ensures { result ≡ given None (λ d. option_map Some (whole_of d)) field
            (data_in self.now) }
    {
        match self.member(field).get() {
            Some(value) => match value.as_u64() {
                Some(number) => Ok(Some(number)),
                None => Err(RequestFault::BadArgument(field)),
            },
            None => Ok(None),
        }
    }

    /// Reads an optional integer, which is 0 by default.
    pub fn integer_or_zero(&self, field: Field) -> Result<i64, RequestFault>
        ensures { result ≡ given (pos 0) integer_of field (data_in self.now) }
    {
        match self.member(field).get() {
            Some(value) => value.as_i64().ok_or(RequestFault::BadArgument(field)),
            None => Ok(0),
        }
    }

    /// Reads an optional boolean.
    pub fn flag_or(&self, field: Field, default: bool) -> Result<bool, RequestFault>
        ensures { result ≡ given default as_bool field (data_in self.now) }
    {
        match self.member(field).get() {
            Some(value) => value.as_bool().ok_or(RequestFault::BadArgument(field)),
            None => Ok(default),
        }
    }

    /// Reads a required text.
    pub fn text(&self, alloc: Global, field: Field) -> Result<Text, RequestFault>
        ensures { Gives result (needed as_str field (data_in self.now)) }
    {
        let Some(value) = self.member(field).get() else {
            return Err(RequestFault::BadArgument(field));
        };
        let Some(text) = value.as_str() else {
            return Err(RequestFault::BadArgument(field));
        };
        Ok(Text::new(alloc, text)?)
    }

    /// Reads an optional text.
    pub fn text_if_any(&self, alloc: Global, field: Field) -> Result<Option<Text>, RequestFault>
        ensures { Gives result (given None (λ d. option_map Some (as_str d)) field
            (data_in self.now)) }
    {
        let Some(value) = self.member(field).get() else {
            return Ok(None);
        };
        let Some(text) = value.as_str() else {
            return Err(RequestFault::BadArgument(field));
        };
        Ok(Some(Text::new(alloc, text)?))
    }
}
