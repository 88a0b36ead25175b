//! The requests of a chain.
ghost use Rattle.std.specs.Prelude.{◌≡◌, [], ◌<◌, length};

use crate::tests::check;
use entries::{Phase, Sqe};
use links_drains::Table;
use model_files::World;
use places::Recorder;
use std::alloc::AllocError;

// Builds a NOP with the given flags: 0, or 4 for IOSQE_IO_LINK.
fn nop(flags: u8) -> Sqe {
    Sqe {
        opcode: 0,
        flags,
        ioprio: 0,
        fd: 0,
        off: 0,
        addr: 0,
        len: 0,
        operation_flags: 0,
        user_data: 7,
        buf_index: 0,
        personality: 0,
        splice_fd_in: 0,
        rest: [0; 16],
    }
}

// Adds three linked NOPs and one more to an empty table.
fn fill(table: &mut Table, world: &World) -> Result<(), AllocError>
    requires { table.old ≡ [] }
{
    let mut notes = Recorder::new(table.allocator());
    let entries = [nop(4), nop(4), nop(0), nop(0)];
    table.take_batch(&entries, world, false, &mut notes)?;
    Ok(())
}

fn end(table: &mut Table, r: u32) -> Result<(), AllocError>
    requires { r < length table.old }
{
    let mut notes = Recorder::new(table.allocator());
    table.set_phase(r, Phase::Ended(-9), &mut notes)
}

// Returns whether the later uncompleted requests of r's chain are these.
fn has_rest(table: &Table, r: u32, rest: &[u32]) -> Result<bool, AllocError> {
    Ok(table.rest_of(r)?.as_slice() == rest)
}

fn has_rests(table: &mut Table, world: &World) -> Result<bool, AllocError>
    requires { table.old ≡ [] }
{
    fill(table, world)?;
    if table.len() != 4 {
        return Ok(false);
    }
    let before = has_rest(table, 0, &[1, 2])?;
    end(table, 1)?;
    Ok(before && has_rest(table, 0, &[2])? && has_rest(table, 2, &[])? && has_rest(table, 4, &[])?)
}

#[test]
fn the_rest_of_a_unit(rt: HostRuntime) -> Result<(), AllocError> {
    let world = World::new(rt.alloc(), &[], &[], &[])?;
    let mut table = Table::new(rt.alloc());
    let rests = has_rests(&mut table, &world)?;
    check(&rt, rests);
    Ok(())
}
