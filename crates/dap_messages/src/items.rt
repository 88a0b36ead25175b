//! Lists in the arguments of requests.
ghost use Rattle.std.specs.Prelude.{Result, map};
ghost use Rattle.serde_json.specs.Data.{Data};
ghost use Rattle.serde_json.specs.View.{view};
ghost use Rattle.dap_messages.specs.declared.fault.RequestFault.{RequestFault};
ghost use Rattle.dap_messages.specs.Faults.{Gives};
ghost use Rattle.dap_messages.specs.Values.{each, items_at};
ghost use Rattle.dap_messages.specs.Views.{data_in};

use crate::fault::RequestFault;
use crate::field::Field;
use crate::found::Found;
use places::Items;
use serde_json::Value;
use std::alloc::Global;

/// An item of a list.
pub trait Item: Drop {
    ghost reads: { Data → Result Self RequestFault };

    fn read(alloc: Global, value: &Value) -> Result<Self, RequestFault>
        ensures { Gives result (reads (view value.now)) };
}

fn read_items<T: Item>(alloc: Global, values: &[Value]) -> Result<Items<T>, RequestFault>
    ensures { Gives result (each T.reads (map view values.now)) }
{
    let mut items = Vec::new(alloc);
    for value in values {
        items.push(T::read(alloc, value)?)?;
    }
    Ok(Items::from_vec(items))
}

/// Reads an optional list, which is empty by default.
pub fn items_at<T: Item>(
    alloc: Global,
    found: &Found<'_>,
    field: Field,
) -> Result<Items<T>, RequestFault>
    ensures { Gives result (items_at T.reads field (data_in found.now)) }
{
    let found = found.member(field);
    let Some(value) = found.get() else {
        return Ok(Items::new(alloc));
    };
    let Some(values) = value.as_array() else {
        return Err(RequestFault::BadArgument(field));
    };
    read_items(alloc, values)
}
