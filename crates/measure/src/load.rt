//! The workload of each run.

use crate::draft::{BATCH, Draft};
use crate::plan::{Plan, Word};
use entries::{
    IORING_ASYNC_CANCEL_ALL, IORING_ASYNC_CANCEL_FD, IOSQE_IO_DRAIN, IOSQE_IO_LINK, POLLIN, Sqe,
};
use machine::{Event, Instruction};
use opcodes::{Choice, Op};
use places::{Contents, Descriptor, End, Items, Object};
use std::alloc::{AllocError, Global};

/// IORING_ASYNC_CANCEL_ALL for a cancel, and POLLIN for a poll.
const OPERATION_FLAGS: u32 = IORING_ASYNC_CANCEL_ALL | POLLIN;

/// One request fewer than the maximum: the 16 programs have 65,536 instructions, one of which is a
/// Put.
const FULL: u32 = 65535;

/// A number of completions that no run reaches.
const FAR: u64 = 1048576;

/// The number of requests that complete one after the other, while others are pending.
const ENDED: u32 = 100;

/// The user_data of the only request that a cancel targets. All others have 0.
const CANCELLED_USER: u64 = 9;

/// The number of different user_data of other requests.
const USERS: u32 = 4000;

type Filled = Result<(), AllocError>;

/// Fills a draft with the run of a plan.
pub fn fill(draft: &mut Draft, Plan { word, size }: Plan) -> Result<(), AllocError> {
    let nop = entry(Op::Nop, 0, 0);
    let cancel_all = with_flags(entry(Op::AsyncCancel, 0, 0));
    match word {
        Word::Full => full(draft, size),
        Word::Nops => requests(draft, size, &[nop], [0; 4]),
        Word::Transfers => transfers(draft, size),
        Word::Issues => turns(draft, nop, size),
        Word::Polls => polls(draft, size),
        Word::Links => turns(draft, flagged(nop, IOSQE_IO_LINK), size),
        Word::Drains => turns(draft, flagged(nop, IOSQE_IO_DRAIN), size),
        Word::Cancels => cancels(draft, size),
        Word::Distinct => distinct(draft, size),
        Word::Shared => shared(draft, size),
        Word::Held => held(draft, size),
        Word::Released => released(draft, size),
        Word::Counts => two_slots(draft, &[nop, entry(Op::Timeout, 1, FAR)], ENDED, size, &[]),
        Word::Meets => meets(draft, size),
        Word::Cascade => two_slots(draft, &[cancel_all, entry(Op::Timeout, 1, 0)], 1, size, &[]),
        Word::Met => two_slots(draft, &[nop, entry(Op::Timeout, 1, 1)], 1, size, &[]),
        Word::Severed => severed(draft, size),
    }
}

// Submits 65,535 NOPs, each taken as soon as it is pushed. After that, the clock advances. There is
// the maximum number of files, each of the maximum size.
fn full(draft: &mut Draft, events: u32) -> Filled {
    let mut files = Vec::new(draft.alloc);
    for number in 0..32u8 {
        let bytes = vec![in draft.alloc; 1u8; 65536]?;
        let name = [b'a' + number / 16, b'a' + number % 16];
        files.push(object(draft.alloc, &name, Contents::File(Items::from_vec(bytes)))?)?;
    }
    draft.setup.objects = Items::from_vec(files);
    draft.put(&[entry(Op::Nop, 0, 0)])?;
    for _row in 0..FULL {
        draft.submit(&[0])?;
    }
    draft.events.resize(events as usize, Event::Tick(1))
}

// Alternates READs of a file's first and second page. After each READ, a WRITE copies the data to
// the third page. The pages differ in every byte.
fn transfers(draft: &mut Draft, events: u32) -> Filled {
    let entries = [
        entry(Op::Read, 4096, 0),
        entry(Op::Read, 4096, 4096),
        entry(Op::Write, 4096, 8192),
    ];
    let mut pages = vec![in draft.alloc; 1u8; 4096]?;
    pages.extend_from_slice(&[2; 4096])?;
    pages.extend_from_slice(&[0; 4096])?;
    open(draft, Contents::File(Items::from_vec(pages)), 1)?;
    requests(draft, events, &entries, [0, 2, 1, 2])
}

// Runs requests of these slots in turn, one at a time, for the given number of events.
fn requests(draft: &mut Draft, events: u32, entries: &[Sqe], slots: [u32; 4]) -> Filled {
    draft.put(entries)?;
    for row in 0..events.div_ceil(5) {
        draft.submit(&[slots[row as usize % 4]])?;
        draft.end_row(row)?;
        draft.step(Instruction::Reap)?;
    }
    draft.events.truncate(events as usize);
    Ok(())
}

// Submits `rows` requests of an entry, and completes half of them, one after the other.
fn turns(draft: &mut Draft, entry: Sqe, rows: u32) -> Filled {
    submit(draft, &[entry], &vec![in draft.alloc; 0u32; rows as usize]?)?;
    for row in 0..rows / 2 {
        draft.end_row(row)?;
    }
    Ok(())
}

fn polls(draft: &mut Draft, rows: u32) -> Filled {
    open(draft, Contents::EventFd(1), 64)?;
    turns(draft, with_flags(entry(Op::PollAdd, 0, 0)), rows)
}

fn cancels(draft: &mut Draft, rows: u32) -> Filled {
    let (mut cancel, mut cancelled) = (entry(Op::AsyncCancel, 0, 0), entry(Op::Nop, 0, 0));
    cancel.addr = CANCELLED_USER;
    cancelled.user_data = CANCELLED_USER;
    let entries = [cancel, entry(Op::Timeout, 1, 0), cancelled];
    two_slots(draft, &entries, ENDED, rows.saturating_sub(1), &[2])
}

// The same, but the other requests have 4,000 different user_data.
fn distinct(draft: &mut Draft, rows: u32) -> Filled {
    let (mut cancel, mut cancelled) = (entry(Op::AsyncCancel, 0, 0), entry(Op::Nop, 0, 0));
    cancel.addr = CANCELLED_USER;
    cancelled.user_data = CANCELLED_USER;
    let mut entries = Vec::from_slice(draft.alloc, &[cancel, cancelled])?;
    for user in 0..USERS {
        let mut other = entry(Op::Timeout, 1, 0);
        other.user_data = CANCELLED_USER + 1 + u64::from(user);
        entries.push(other)?;
    }
    let mut slots = vec![in draft.alloc; 0u32; ENDED as usize]?;
    for row in 1..rows {
        slots.push(2 + row % USERS)?;
    }
    slots.push(1)?;
    submit(draft, &entries, &slots)?;
    finish(draft, &slots, u32::MAX)
}

// Each cancel finds and cancels the first of many requests with one user_data.
fn shared(draft: &mut Draft, rows: u32) -> Filled {
    let (mut cancel, mut other) = (entry(Op::AsyncCancel, 0, 0), entry(Op::Timeout, 1, 0));
    cancel.addr = CANCELLED_USER;
    other.user_data = CANCELLED_USER;
    two_slots(draft, &[cancel, other], ENDED, rows, &[])
}

// Each cancel finds the last READ by its descriptor. All others hold another descriptor.
fn held(draft: &mut Draft, rows: u32) -> Filled {
    let (cancel, cancelled) = by_descriptor(draft)?;
    let mut other = cancelled;
    other.fd = 4;
    two_slots(
        draft,
        &[cancel, other, cancelled],
        ENDED,
        rows.saturating_sub(1),
        &[2],
    )
}

// The same, but the other READs held the same descriptor, and have completed.
fn released(draft: &mut Draft, rows: u32) -> Filled {
    let (cancel, read) = by_descriptor(draft)?;
    let mut slots = vec![in draft.alloc; 0u32; ENDED as usize]?;
    for _row in 1..rows {
        slots.push(2)?;
    }
    slots.push(1)?;
    submit(draft, &[cancel, read, read], &slots)?;
    for (row, slot) in (0..FULL).zip(&slots) {
        if *slot == 2 {
            draft.end_row(row)?;
        }
    }
    finish(draft, &slots, 2)
}

// Sets up a file with descriptors 3 and 4. Returns a cancel by descriptor 3, and a READ of it.
fn by_descriptor(draft: &mut Draft) -> Result<(Sqe, Sqe), AllocError> {
    let page = vec![in draft.alloc; 1u8; 4096]?;
    open(draft, Contents::File(Items::from_vec(page)), 2)?;
    let mut cancel = entry(Op::AsyncCancel, 0, 0);
    cancel.operation_flags = IORING_ASYNC_CANCEL_FD;
    Ok((cancel, entry(Op::Read, 1, 0)))
}

// Each NOP completes one TIMEOUT: one TIMEOUT waits for one completion, one for two, and so on.
fn meets(draft: &mut Draft, rows: u32) -> Filled {
    let mut entries = Vec::from_slice(
        draft.alloc,
        &[entry(Op::Nop, 0, 0), entry(Op::Timeout, 1, FAR)],
    )?;
    let mut met = Vec::new(draft.alloc);
    for turn in 0..ENDED {
        entries.push(entry(Op::Timeout, 1, u64::from(turn) + 1))?;
        met.push(turn + 2)?;
    }
    two_slots(draft, &entries, ENDED, rows.saturating_sub(ENDED), &met)
}

// Submits `firsts` requests of slot 0, `others` of slot 1, and one of each slot in `last`. Issues
// all of them, and then completes those of slot 0.
fn two_slots(draft: &mut Draft, entries: &[Sqe], firsts: u32, others: u32, last: &[u32]) -> Filled {
    let mut slots = vec![in draft.alloc; 0u32; firsts as usize]?;
    slots.resize(firsts as usize + others as usize, 1)?;
    slots.extend_from_slice(last)?;
    submit(draft, entries, &slots)?;
    finish(draft, &slots, u32::MAX)
}

// Submits a cancel, and chains as long as a batch. The cancel completes the first request of each
// chain, and so severs the rest.
fn severed(draft: &mut Draft, rows: u32) -> Filled {
    let first = flagged(entry(Op::Timeout, 1, 0), IOSQE_IO_LINK);
    let later = flagged(entry(Op::Nop, 0, 0), IOSQE_IO_LINK);
    let mut slots = vec![in draft.alloc; 0u32; 1]?;
    for row in 1..=rows {
        slots.push(if row == 1 || row % BATCH == 0 { 1 } else { 2 })?;
    }
    let cancel_all = with_flags(entry(Op::AsyncCancel, 0, 0));
    submit(draft, &[cancel_all, first, later], &slots)?;
    finish(draft, &slots, 2)
}

// Puts entries into the slots from 0 on, and submits requests of the given slots in batches.
fn submit(draft: &mut Draft, entries: &[Sqe], slots: &[u32]) -> Filled {
    draft.put(entries)?;
    for batch in slots.chunks(BATCH as usize) {
        draft.submit(batch)?;
    }
    Ok(())
}

// Issues the requests whose slot is below `bound`, and completes those of slot 0.
fn finish(draft: &mut Draft, slots: &[u32], bound: u32) -> Filled {
    for (row, slot) in (0..FULL).zip(slots) {
        if *slot < bound {
            draft.events.push(Event::Issue(row))?;
        }
    }
    for (row, slot) in (0..FULL).zip(slots) {
        if *slot == 0 {
            draft.events.push(Event::Finish(row, Choice::Full))?;
        }
    }
    Ok(())
}

// Sets up one object, with the given number of descriptors.
fn open(draft: &mut Draft, contents: Contents, descriptors: usize) -> Filled {
    let whole = Descriptor {
        object: 0,
        end: End::Whole,
    };
    draft.setup.fds = Items::from_vec(vec![in draft.alloc; whole; descriptors]?);
    draft.setup.objects = Items::from_vec(vec![in draft.alloc;
        object(draft.alloc, b"o", contents)?,
    ]?);
    Ok(())
}

fn object(alloc: Global, name: &[u8], contents: Contents) -> Result<Object, AllocError> {
    let name = Items::from_vec(Vec::from_slice(alloc, name)?);
    Ok(Object { name, contents })
}

// Returns an entry for descriptor 3 and address 0.
fn entry(op: Op, len: u32, off: u64) -> Sqe {
    let mut entry = Sqe::read(&[0; 64]);
    entry.opcode = op as u8;
    entry.fd = 3;
    entry.len = len;
    entry.off = off;
    entry
}

fn flagged(mut entry: Sqe, flags: u8) -> Sqe {
    entry.flags = flags;
    entry
}

fn with_flags(mut entry: Sqe) -> Sqe {
    entry.operation_flags = OPERATION_FLAGS;
    entry
}
