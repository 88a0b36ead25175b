//! Completes several requests at once.
ghost use Rattle.std.specs.Prelude.{◌≡◌, ◌+◌, ◌≤◌, OnOk, length};
ghost use Rattle.places.specs.View.{Keeps};
ghost use Rattle.links_drains.specs.Endings.{Direct, ended_by};
ghost use Rattle.links_drains.specs.Numbered.{map_numbered};
ghost use Rattle.links_drains.specs.Rows.{Stay, table_owns, table_seen};

use super::Table;
use entries::Phase;
use places::Recorder;
use std::alloc::AllocError;

impl Table {
    /// Completes the listed requests, each with its result. Memory for their notes is allocated at
    /// once. If an allocation fails, some of them may have completed.
    pub fn end_all(&mut self, ended: &[(u32, i32)], notes: &mut Recorder) -> Result<(), AllocError>
        requires { Direct self.old ended.now }
        ensures ok { OnOk result (self.new ≡ map_numbered (ended_by ended.now) self.old) }
        ensures len { length self.new ≡ length self.old }
        ensures stay { Stay self.old self.new }
        ensures keeps { Keeps table_owns (table_seen self.old)
            (table_seen self.new) notes.old.made notes.new.made }
        ensures numbers { notes.old.numbers ≤ notes.new.numbers }
        ensures completions { notes.old.completions ≤ notes.new.completions }
        ensures others { notes.old.others ≤ notes.new.others + length ended.now }
    {
        if ended.len() > 1 {
            notes.expect_rows(ended.len())?;
        }
        for i in 0..ended.len() {
            let (r, res) = ended[i];
            self.set_phase(r, Phase::Ended(res), notes)?;
        }
        Ok(())
    }
}
