//! Members of JSON objects.
ghost use Rattle.std.specs.Prelude.{◌≡◌, OnOk, map};
ghost use Rattle.serde_json.specs.View.{members_view, view};
ghost use Rattle.dap_views.specs.Bodies.{list_data, number_data, text_data, with};

use serde_json::{Map, Value, put};
use std::alloc::{AllocError, Global};

/// A JSON object that is being built.
pub(crate) type Members = Map<String, Value>;

/// Adds a member.
#[tactic(auto, unfolding(crate::specs::Bodies::with))]
pub(crate) fn put_member(
    alloc: Global,
    members: &mut Members,
    name: &str,
    value: Value,
) -> Result<(), AllocError>
    ensures { OnOk result (members_view members.new.entries
        ≡ with name.now (view value) (members_view members.old.entries)) }
{
    put(members, alloc, name, value)
}

/// Adds a text.
#[tactic(auto, unfolding(crate::specs::Bodies::text_data))]
pub(crate) fn put_text(
    alloc: Global,
    members: &mut Members,
    name: &str,
    text: &[u8],
) -> Result<(), AllocError>
    ensures { OnOk result (members_view members.new.entries
        ≡ with name.now (text_data text.now) (members_view members.old.entries)) }
{
    let text = String::from_utf8_lossy(alloc, text)?;
    put_member(alloc, members, name, Value::String(text))
}

/// Adds a number.
#[tactic(auto, unfolding(crate::specs::Bodies::number_data))]
pub(crate) fn put_number(
    alloc: Global,
    members: &mut Members,
    name: &str,
    number: u64,
) -> Result<(), AllocError>
    ensures { OnOk result (members_view members.new.entries
        ≡ with name.now (number_data number) (members_view members.old.entries)) }
{
    put_member(alloc, members, name, Value::from(number))
}

/// Adds a list.
#[tactic(auto, unfolding(crate::specs::Bodies::list_data))]
pub(crate) fn put_list(
    alloc: Global,
    members: &mut Members,
    name: &str,
    list: Vec<Value>,
) -> Result<(), AllocError>
    ensures { OnOk result (members_view members.new.entries
        ≡ with name.now (list_data (map view list.items)) (members_view members.old.entries)) }
{
    put_member(alloc, members, name, Value::Array(list))
}
