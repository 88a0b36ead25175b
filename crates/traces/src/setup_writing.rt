//! Writes setups.
ghost use Rattle.std.specs.Prelude.{◌≡◌, ◌+◌, ◌*◌, ◌<◌, ◌≤◌, ◌^◌, ◌++◌, nat_lt, [], length, take, OnOk, IsTrue};
ghost use Rattle.std.specs.List.{list_all, AllByRecursion};
ghost use Rattle.std.specs.Int.{cast_unsigned};
ghost use Rattle.byteorder.specs.Endian.{little_bytes};
ghost use Rattle.entries.specs.Layout.{EntryFits, entry_bytes};
ghost use Rattle.places.specs.declared.object.Object.{Object};
ghost use Rattle.scenario.specs.declared.setup.Instruction.{Instruction};
ghost use Rattle.scenario.specs.declared.setup.Instruction.TheVariants.{Put};
ghost use Rattle.scenario.specs.declared.setup.Setup.{Setup};
ghost use Rattle.traces.specs.Limits.{is_within, all_with_prefix, keeps_contents, keeps_object, end_number, keeps_instruction, keeps_program, keeps_completions, keeps_rings, keeps_ranges, HasWidths, Widths};
ghost use Rattle.traces.specs.Setups.{list_bytes, long_bytes, name_bytes, contents_bytes, object_bytes, descriptor_bytes, instruction_bytes, program_bytes, options_number, rings_bytes, setup_bytes, trimmed, completion_size, canonical};

use byteorder::{ByteOrder, LittleEndian};
use entries::Sqe;
use places::{Contents, Descriptor, End, Items, Object};
use scenario::{Instruction, Setup, ring_size};
use std::alloc::AllocError;

fn push_u8(out: &mut Vec<u8>, number: u8) -> Result<(), AllocError>
    ensures { OnOk result (out.new.items ≡ out.old.items ++ little_bytes 1 number) }
{
    out.push(number)?;
    Ok(())
}

fn push_u16(out: &mut Vec<u8>, number: u16) -> Result<(), AllocError>
    ensures { OnOk result (out.new.items ≡ out.old.items ++ little_bytes 2 number) }
{
    let mut bytes = [0; 2];
    LittleEndian::write_u16(&mut bytes, number);
    out.extend_from_slice(&bytes)
}

fn push_u32(out: &mut Vec<u8>, number: u32) -> Result<(), AllocError>
    ensures { OnOk result (out.new.items ≡ out.old.items ++ little_bytes 4 number) }
{
    let mut bytes = [0; 4];
    LittleEndian::write_u32(&mut bytes, number);
    out.extend_from_slice(&bytes)
}

fn push_u64(out: &mut Vec<u8>, number: u64) -> Result<(), AllocError>
    ensures { OnOk result (out.new.items ≡ out.old.items ++ little_bytes 8 number) }
{
    let mut bytes = [0; 8];
    LittleEndian::write_u64(&mut bytes, number);
    out.extend_from_slice(&bytes)
}

// Writes the number of bytes, and the bytes.
fn push_long(out: &mut Vec<u8>, bytes: &[u8]) -> Result<(), AllocError>
    requires { length bytes.now < 2 ^ 32 }
    ensures { OnOk result (out.new.items ≡ out.old.items ++ long_bytes bytes.now) }
{
    push_u32(out, bytes.len() as u32)?;
    out.extend_from_slice(bytes)
}

fn push_contents(out: &mut Vec<u8>, contents: &Contents) -> Result<(), AllocError>
    requires { IsTrue (keeps_contents contents.now) }
    ensures { OnOk result (out.new.items ≡ out.old.items ++ contents_bytes contents.now) }
{
    match contents {
        Contents::File(bytes) => {
            push_u8(out, 1)?;
            push_long(out, bytes.as_slice())
        }
        Contents::Pipe(capacity) => {
            push_u8(out, 2)?;
            push_u32(out, *capacity)
        }
        Contents::EventFd(counter) => {
            push_u8(out, 3)?;
            push_u64(out, *counter)
        }
    }
}

fn push_name(out: &mut Vec<u8>, name: &[u8]) -> Result<(), AllocError>
    requires { length name.now < 256 }
    ensures { OnOk result (out.new.items ≡ out.old.items ++ name_bytes name.now) }
{
    push_u8(out, name.len() as u8)?;
    out.extend_from_slice(name)
}

fn push_object(out: &mut Vec<u8>, object: &Object) -> Result<(), AllocError>
    requires name { length object.now.name < 256 }
    requires contents { IsTrue (keeps_contents object.now.contents) }
    ensures { OnOk result (out.new.items ≡ out.old.items ++ object_bytes object.now) }
{
    push_name(out, object.name.as_slice())?;
    push_contents(out, &object.contents)
}

fn push_objects(out: &mut Vec<u8>, objects: &[Object]) -> Result<(), AllocError>
    requires few { length objects.now ≤ 32 }
    requires kept { IsTrue (all_with_prefix keeps_object [] objects.now) }
    ensures { OnOk result (out.new.items ≡ out.old.items ++ list_bytes object_bytes objects.now) }
{
    push_u32(out, objects.len() as u32)?;
    for object in objects {
        push_object(out, object)?;
    }
    Ok(())
}

fn end_number(end: End) -> u8
    ensures { result ≡ end_number end }
{
    match end {
        End::Whole => 0,
        End::Read => 1,
        End::Write => 2,
    }
}

fn push_descriptor(out: &mut Vec<u8>, descriptor: Descriptor) -> Result<(), AllocError>
    requires { descriptor.object < 256 }
    ensures { OnOk result (out.new.items ≡ out.old.items ++ descriptor_bytes descriptor) }
{
    push_u8(out, descriptor.object as u8)?;
    push_u8(out, end_number(descriptor.end))
}

fn push_descriptors(out: &mut Vec<u8>, descriptors: &[Descriptor]) -> Result<(), AllocError>
    requires few { length descriptors.now ≤ 64 }
    requires small { IsTrue (list_all (λ d. nat_lt d.object 256) descriptors.now) }
    ensures { OnOk result (out.new.items ≡ out.old.items
        ++ list_bytes descriptor_bytes descriptors.now) }
{
    push_u32(out, descriptors.len() as u32)?;
    for descriptor in descriptors {
        push_descriptor(out, *descriptor)?;
    }
    Ok(())
}

fn entry_bytes(entry: Sqe) -> [u8; 64]
    ensures spelled { result ≡ entry_bytes entry }
    ensures fits { EntryFits entry }
    ensures rest { length entry.rest ≡ 16 }
{
    entry.write()
}

fn push_put(out: &mut Vec<u8>, slot: u32, entry: Sqe) -> Result<(), AllocError>
    ensures spelled { OnOk result (out.new.items ≡ out.old.items
        ++ instruction_bytes (Put slot entry)) }
    ensures widths { OnOk result (HasWidths (Put slot entry)) }
{
    push_u8(out, 1)?;
    push_u32(out, slot)?;
    out.extend_from_slice(&entry_bytes(entry))?;
    Ok(())
}

fn push_store(out: &mut Vec<u8>, address: u32, bytes: &[u8]) -> Result<(), AllocError>
    requires { length bytes.now < 2 ^ 32 }
    ensures { OnOk result (out.new.items ≡ out.old.items
        ++ (little_bytes 1 3 ++ (little_bytes 4 address ++ long_bytes bytes.now))) }
{
    push_u8(out, 3)?;
    push_u32(out, address)?;
    push_long(out, bytes)
}

fn push_enter(
    out: &mut Vec<u8>,
    to_submit: u32,
    min_complete: u32,
    flags: u32,
) -> Result<(), AllocError>
    ensures { OnOk result (out.new.items ≡ out.old.items
        ++ (little_bytes 1 4
        ++ (little_bytes 4 to_submit ++ (little_bytes 4 min_complete ++ little_bytes 4 flags)))) }
{
    push_u8(out, 4)?;
    push_u32(out, to_submit)?;
    push_u32(out, min_complete)?;
    push_u32(out, flags)
}

fn push_instruction(
    out: &mut Vec<u8>,
    slots: u32,
    instruction: &Instruction,
) -> Result<(), AllocError>
    requires { IsTrue (keeps_instruction slots instruction.now) }
    ensures spelled { OnOk result (out.new.items ≡ out.old.items
        ++ instruction_bytes instruction.now) }
    ensures widths { OnOk result (HasWidths instruction.now) }
{
    match instruction {
        Instruction::Put(slot, entry) => push_put(out, *slot, *entry),
        Instruction::Push(index) => {
            push_u8(out, 2)?;
            push_u32(out, *index)
        }
        Instruction::Store(address, bytes) => push_store(out, *address, bytes.as_slice()),
        Instruction::Enter {
            to_submit,
            min_complete,
            flags,
        } => push_enter(out, *to_submit, *min_complete, *flags),
        Instruction::Reap => push_u8(out, 5),
        Instruction::Close(fd) => {
            push_u8(out, 6)?;
            push_u32(out, fd.cast_unsigned())
        }
    }
}

fn push_program(out: &mut Vec<u8>, slots: u32, program: &[Instruction]) -> Result<(), AllocError>
    requires { IsTrue (keeps_program slots program.now) }
    ensures spelled { OnOk result (out.new.items ≡ out.old.items ++ program_bytes program.now) }
    ensures widths { OnOk result (AllByRecursion HasWidths program.now) }
{
    push_u32(out, program.len() as u32)?;
    for instruction in program {
        push_instruction(out, slots, instruction)?;
    }
    Ok(())
}

fn push_threads(
    out: &mut Vec<u8>,
    slots: u32,
    threads: &[Items<Instruction>],
) -> Result<(), AllocError>
    requires few { length threads.now ≤ 16 }
    requires kept { IsTrue (list_all (keeps_program slots) threads.now) }
    ensures spelled { OnOk result (out.new.items ≡ out.old.items
        ++ list_bytes program_bytes threads.now) }
    ensures widths { OnOk result (AllByRecursion (AllByRecursion HasWidths) threads.now) }
{
    push_u32(out, threads.len() as u32)?;
    for program in threads {
        push_program(out, slots, program.as_slice())?;
    }
    Ok(())
}

// Returns the number of bytes without the zeros at the end.
fn trimmed_len(bytes: &[u8]) -> usize
    ensures within { result ≤ length bytes.now }
    ensures trimmed { take result bytes.now ≡ trimmed bytes.now }
{
    let mut len = bytes.len();
    while len > 0 && bytes[len - 1] == 0 {
        len -= 1;
    }
    len
}

fn completion_size(entries: u32, cq: Option<u32>) -> u32
    requires entries { IsTrue (is_within 1 4096 entries) }
    requires kept { IsTrue (keeps_completions entries cq) }
    ensures { result ≡ completion_size entries cq }
{
    match cq {
        None => 2 * ring_size(entries),
        Some(cq) => ring_size(cq),
    }
}

fn options_number(sqpoll: bool, submit_all: bool) -> u8
    ensures { result ≡ options_number sqpoll submit_all }
{
    u8::from(sqpoll) + 2 * u8::from(submit_all)
}

fn push_rings(out: &mut Vec<u8>, setup: &Setup) -> Result<(), AllocError>
    requires { IsTrue (keeps_rings setup.now) }
    ensures spelled { OnOk result (out.new.items ≡ out.old.items
        ++ rings_bytes (canonical setup.now)) }
    ensures base { OnOk result (setup.now.base < 2 ^ 32) }
{
    push_u16(out, ring_size(setup.entries) as u16)?;
    push_u16(out, completion_size(setup.entries, setup.cq) as u16)?;
    push_u8(out, options_number(setup.sqpoll, setup.submit_all))?;
    push_u32(out, setup.base)
}

fn push_memory(out: &mut Vec<u8>, memory: &[u8]) -> Result<(), AllocError>
    requires { length memory.now ≤ 65536 }
    ensures { OnOk result (out.new.items ≡ out.old.items ++ long_bytes (trimmed memory.now)) }
{
    push_long(out, &memory[..trimmed_len(memory)])
}

/// Writes a setup with rounded sizes, and memory without zeros at the end.
pub(crate) fn push_setup(out: &mut Vec<u8>, setup: &Setup) -> Result<(), AllocError>
    requires { IsTrue (keeps_ranges setup.now) }
    ensures spelled { OnOk result (out.new.items ≡ out.old.items
        ++ setup_bytes (canonical setup.now)) }
    ensures widths { OnOk result (Widths setup.now) }
{
    push_rings(out, setup)?;
    push_memory(out, setup.memory.as_slice())?;
    push_objects(out, setup.objects.as_slice())?;
    push_descriptors(out, setup.fds.as_slice())?;
    push_threads(out, ring_size(setup.entries), setup.threads.as_slice())?;
    Ok(())
}
