//! The values of all places at the first moment of a page.
ghost use Rattle.std.specs.Prelude.{◌≡◌, ◌++◌, ◌∷◌, ◌+◌, ◌≤◌, ℕ, None, List, [], length, map, replicate, take, string_bytes, IfOk, OnOk, IfSome};
ghost use Rattle.std.specs.Str.Lossy.{utf8_lossy};
ghost use Rattle.scenario.specs.PlaceTexts.{place_text};
ghost use Rattle.scenario.specs.Setups.{setup_refusal};
ghost use Rattle.scenario.specs.declared.setup.Setup.{Setup};
ghost use Rattle.machine.specs.Whole.{view};
ghost use Rattle.timeline_values.specs.Values.{value_texts, value_listed, places_at, values_of, values_below, all_values, bytes_below, object_regions, setup_regions, region_listed, IsRegionShown, AreRegions, AreValues};

use crate::changes::{add_byte, value_string};
use crate::parts::ValuePart;
use base64::engine::general_purpose::STANDARD;
use machine::{Setup, State};
use places::{Contents, Place, Region, Value};
use scenario::put_place;
use state_places::{
    PARTS, REQUESTS, SLOTS, lone_places, places_of_part, places_of_request, places_of_slot,
};
use std::alloc::{AllocError, Global};

/// The values of all places at a moment.
#[derive(Drop)]
pub struct Values {
    /// The values of places that are no bytes.
    pub values: Vec<ValuePart>,
    /// The bytes of the memory and of the objects.
    pub regions: Vec<ValuePart>,
}

// Returns the name of a place.
fn place_string(alloc: Global, setup: &Setup, place: Place) -> Result<String, AllocError>
    ensures { IfOk result (λ text. string_bytes text
        ≡ utf8_lossy (place_text setup.now place)) }
{
    let mut text = Vec::new(alloc);
    put_place(alloc, &mut text, setup, place)?;
    String::from_utf8_lossy(alloc, text.as_slice())
}

// Adds a place with its value, unless it is absent.
fn add_value(
    alloc: Global,
    out: &mut Vec<ValuePart>,
    setup: &Setup,
    place: Place,
    value: Option<Value>,
) -> Result<(), AllocError>
    ensures { OnOk result (map value_texts out.new.items
        ≡ map value_texts out.old.items ++ value_listed setup.now place value) }
{
    if value.is_none() {
        return Ok(());
    }
    let name = place_string(alloc, setup, place)?;
    let text = value_string(alloc, value)?;
    out.push(ValuePart(name, text))?;
    Ok(())
}

// Adds the values of places.
fn add_values(
    alloc: Global,
    out: &mut Vec<ValuePart>,
    setup: &Setup,
    state: &State,
    places: &[Place],
) -> Result<(), AllocError>
    ensures { OnOk result (map value_texts out.new.items
        ≡ map value_texts out.old.items ++ values_of setup.now (view state.now) places.now) }
{
    for place in places {
        add_value(alloc, out, setup, *place, state.value(*place))?;
    }
    Ok(())
}

// Adds the values of the places with a number that are no bytes.
fn add_values_at(
    alloc: Global,
    out: &mut Vec<ValuePart>,
    setup: &Setup,
    state: &State,
    number: u32,
) -> Result<(), AllocError>
    ensures { OnOk result (map value_texts out.new.items ≡ map value_texts out.old.items
        ++ values_of setup.now (view state.now) (places_at number)) }
{
    add_values(alloc, out, setup, state, &places_of_request(number))?;
    if number < SLOTS {
        add_values(alloc, out, setup, state, &places_of_slot(number))?;
    }
    if number < PARTS {
        add_values(alloc, out, setup, state, &places_of_part(number))?;
    }
    Ok(())
}

// Returns a number, at most `count`. From it on, places with a number below `count` are absent.
fn numbered_below(state: &State, count: u32) -> u32
    ensures { (s : Setup) → values_below s (view state.now) result
        ≡ values_below s (view state.now) count }
{
    state.numbered_below().max(PARTS).min(count)
}

// Returns the values of all places that are no bytes, of those with a number below `count`.
fn values_of(
    alloc: Global,
    setup: &Setup,
    state: &State,
    count: u32,
) -> Result<Vec<ValuePart>, AllocError>
    ensures { IfOk result (λ values. map value_texts values.items
        ≡ all_values setup.now (view state.now) count) }
{
    let mut out = Vec::new(alloc);
    add_values(alloc, &mut out, setup, state, &lone_places())?;
    let end = numbered_below(state, count);
    for number in 0..end {
        add_values_at(alloc, &mut out, setup, state, number)?;
    }
    Ok(out)
}

// Returns the first `count` bytes, or all if there are fewer.
fn first_bytes(bytes: &[u8], count: u32) -> &[u8]
    ensures { result.now ≡ take count bytes.entry.now }
{
    &bytes[..bytes.len().min(count as usize)]
}

// Returns the bytes of a region below an index, reading one after the other.
#[tactic(auto, using(crate::proofs::Valued::bytes_more))]
fn read_bytes(
    alloc: Global,
    state: &State,
    region: Region,
    count: u32,
) -> Result<Vec<u8>, AllocError>
    ensures { IfOk result (λ bytes. bytes.items ≡ bytes_below (view state.now) region count) }
{
    let mut bytes = Vec::new(alloc);
    for index in 0..count {
        add_byte(&mut bytes, state.value(region.place(index)))?;
    }
    Ok(bytes)
}

// Returns bytes without the zeros at their end.
fn without_zeros(bytes: &[u8]) -> &[u8]
    ensures { (zeros : ℕ) × (bytes.entry.now ≡ result.now ++ replicate zeros 0) }
{
    let mut end = bytes.len();
    while end > 0 && bytes[end - 1] == 0 {
        end -= 1;
    }
    &bytes[..end]
}

// Adds a region, given its first bytes, unless all are zeros.
fn add_bytes(
    alloc: Global,
    out: &mut Vec<ValuePart>,
    setup: &Setup,
    region: Region,
    whole: &[u8],
) -> Result<(), AllocError>
    ensures { OnOk result ((parts : List ValuePart) × (bytes : List ℕ) × (zeros : ℕ)
        × (out.new.items ≡ out.old.items ++ parts)
        × (whole.entry.now ≡ bytes ++ replicate zeros 0)
        × (map value_texts parts ≡ region_listed setup.entry.now region bytes)) }
{
    let bytes = without_zeros(whole);
    if bytes.is_empty() {
        return Ok(());
    }
    let name = place_string(alloc, setup, region.place(0))?;
    let text = STANDARD.encode(alloc, bytes)?;
    out.push(ValuePart(name, text))?;
    Ok(())
}

// Adds the first `count` bytes of a region, unless all are zeros.
fn add_region(
    alloc: Global,
    out: &mut Vec<ValuePart>,
    setup: &Setup,
    state: &State,
    region: Region,
    count: u32,
) -> Result<(), AllocError>
    ensures { OnOk result ((parts : List ValuePart) × (out.new.items ≡ out.old.items ++ parts)
        × IsRegionShown setup.entry.now (view state.entry.now) count region parts) }
{
    if let Some(bytes) = state.bytes_in(region) {
        return add_bytes(alloc, out, setup, region, first_bytes(bytes, count));
    }
    let bytes = read_bytes(alloc, state, region, count)?;
    add_bytes(alloc, out, setup, region, bytes.as_slice())
}

// Adds the regions of an object. An eventfd has none.
fn add_object_regions(
    regions: &mut Vec<Region>,
    number: u32,
    contents: &Contents,
) -> Result<(), AllocError>
    ensures { OnOk result (regions.new.items ≡ regions.old.items
        ++ object_regions number contents.now) }
{
    match contents {
        Contents::File(_) => {
            regions.push(Region::File(number))?;
            regions.push(Region::Durable(number))?;
        }
        Contents::Pipe(_) => regions.push(Region::Pipe(number))?,
        Contents::EventFd(_) => {}
    }
    Ok(())
}

// Returns the regions of a setup: the memory, and those of its objects.
fn regions_of_setup(alloc: Global, setup: &Setup) -> Result<Vec<Region>, AllocError>
    requires { length setup.now.objects ≤ 32 }
    ensures { IfOk result (λ regions. regions.items ≡ setup_regions setup.now) }
{
    let mut regions = Vec::new(alloc);
    regions.push(Region::Memory)?;
    for (number, object) in setup.objects.as_slice().iter().enumerate() {
        add_object_regions(&mut regions, number as u32, &object.contents)?;
    }
    Ok(regions)
}

// Returns the bytes of regions, the first `count` of each.
fn region_parts(
    alloc: Global,
    setup: &Setup,
    state: &State,
    regions: &[Region],
    count: u32,
) -> Result<Vec<ValuePart>, AllocError>
    ensures { IfOk result (λ parts.
        AreRegions setup.now (view state.now) count regions.now parts.items) }
{
    let mut out = Vec::new(alloc);
    for region in regions {
        add_region(alloc, &mut out, setup, state, *region, count)?;
    }
    Ok(out)
}

// Returns the values of a state, of its numbered places and bytes those below `count`.
fn all_values_below(
    alloc: Global,
    setup: &Setup,
    state: &State,
    count: u32,
) -> Result<Values, AllocError>
    requires objects { length setup.now.objects ≤ 32 }
    requires count { count ≡ 65536 }
    ensures { IfOk result (λ x. AreValues setup.now (view state.now) x.values.items
        x.regions.items) }
{
    let values = values_of(alloc, setup, state, count)?;
    let regions = regions_of_setup(alloc, setup)?;
    let regions = region_parts(alloc, setup, state, &regions, count)?;
    Ok(Values { values, regions })
}

impl Values {
    /// Returns the values of a state.
    pub fn new(alloc: Global, setup: &Setup, state: &State) -> Result<Values, AllocError>
        requires { setup_refusal setup.now ≡ None }
        ensures { IfOk result (λ x. AreValues setup.now (view state.now) x.values.items
            x.regions.items) }
    {
        all_values_below(alloc, setup, state, REQUESTS)
    }
}
