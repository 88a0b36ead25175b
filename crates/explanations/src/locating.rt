//! Where the findings of a script's run are in its text.
ghost use Rattle.std.specs.Prelude.{◌≡◌, IfOk, IfSome, slice_get};
ghost use Rattle.explanations.specs.Locations.{IsMapOf, item_of, last_event};

use crate::subjects::Subject;
use script::{ScriptFault, read_script};
use source_map::{Item, SourceMap, source_map};
use std::alloc::{AllocError, Global};

/// Returns where the items of a script are in its text. A text that isn't a script has none.
pub(crate) fn map_of(alloc: Global, text: &[u8]) -> Result<Option<SourceMap>, AllocError>
    ensures { IfOk result (λ found. IfSome found (IsMapOf text.now)) }
{
    match read_script(alloc, text) {
        Ok(script) => source_map(alloc, text, &script),
        Err(ScriptFault::Memory) => Err(AllocError),
        Err(_) => Ok(None),
    }
}

// Returns where the event at a moment is, or the last one at the end.
fn event_of(map: &SourceMap, moment: u32) -> Option<Item>
    ensures { result ≡ slice_get map.now.schedule (last_event moment map.now.schedule) }
{
    let last = map.schedule.len().saturating_sub(1);
    map.event((moment as usize).min(last))
}

/// Returns where in a script is what a finding points at.
pub(crate) fn item_of(map: &SourceMap, subject: Subject) -> Option<Item>
    ensures { result ≡ item_of map.now subject }
{
    match subject {
        Subject::Instruction(step) => {
            map.instruction(step.thread as usize, step.instruction as usize)
        }
        Subject::Event(moment) => event_of(map, moment),
    }
}
