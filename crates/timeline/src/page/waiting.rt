//! A part of the page, which tools/page writes from page/waiting.js.

/// The text of this part.
pub(crate) const TEXT: &str = r##"// What rows wait for that have not completed, by the
// rules of the model: those of chains and drains, of pipes, of eventfds, of polls and of timers.

const MOST_NAMED = 8;
const numbers_of = (some) => some.slice(0, MOST_NAMED).map((it) => it.row).join(', ')
  + (some.length > MOST_NAMED ? ` and ${some.length - MOST_NAMED} more` : '');

// A row waits for those before it in its chain, and for all earlier chains if its own drains, or for those that do.
function queued_waits_for(alive, row) {
  if (row.target !== null) return `row ${row.target}, which it limits, to be issued`;
  const linked = alive.filter((other) => other.unit === row.unit && other.row < row.row && other.target === null).pop();
  if (linked) return `row ${linked.row}, to which it is linked, to complete`;
  const earlier = alive.filter((other) => other.unit < row.unit && (row.drains || other.drains));
  if (!earlier.length) return 'the kernel to issue it';
  return `${row.drains ? 'all earlier rows' : 'rows of chains that drain'} to complete: ${numbers_of(earlier)}`;
}

// Returns the number, the object, the name and the end of a descriptor, or null.
function descriptor_at(drawn, fd) {
  const text = drawn.descriptors[fd - 3];
  if (text === undefined) return null;
  const [name, end] = text.split(':');
  return {fd, name, end, object: drawn.objects.find((it) => it.name === name)};
}

const holds = (row, fd, moment) => row.fd === fd && [FSYNC, POLL_ADD, READ, WRITE].includes(row.op) && phase_of(row, moment) === 'issued';

// Returns whether a pipe has a writer, or a reader: an end that is open, or held by a row.
const has_end = (drawn, state, alive, text) => drawn.descriptors.some((it, k) => it === text
  && (shown(state, `open ${k + 3}`) === '1' || alive.some((row) => holds(row, k + 3, state.moment))));

// Returns the numbers of bytes in a pipe, and of those that are free.
function filling_of(state, {name, capacity}) {
  const filled = number_at(state, `put ${name}`) - number_at(state, `taken ${name}`);
  return {filled, free: capacity - filled};
}

const MOST_COUNT = 2n ** 64n - 2n;
const counter_of = (state, name) => BigInt(shown(state, `event ${name}`));

// Returns what a transfer of a pipe waits for, or null. A WRITE of at most 4,096 bytes waits until all of them fit.
function pipe_waits_for(drawn, state, alive, row, {name, object}) {
  const {filled, free} = filling_of(state, object), is_free = row.len <= Math.min(4096, object.capacity) ? free >= row.len : free > 0;
  if (row.op === READ) return filled === 0 && has_end(drawn, state, alive, `${name}:w`) ? `bytes in pipe ${name}` : null;
  return !is_free && has_end(drawn, state, alive, `${name}:r`) ? `room in pipe ${name}` : null;
}

function eventfd_waits_for(state, row, name) {
  const counter = counter_of(state, name), at = Number(row.addr);
  if (row.len < 8) return null;
  if (row.op === READ) return counter === 0n ? `a write to eventfd ${name}` : null;
  const bytes = state.regions.get('mem').slice(at, at + 8), number = new DataView(bytes.buffer).getBigUint64(0, true);
  return number <= MOST_COUNT && counter + number > MOST_COUNT ? `a read of eventfd ${name}` : null;
}

function transfer_waits_for(drawn, state, alive, row, descriptor) {
  const object = descriptor && descriptor.object;
  if (!object || row.len === 0 || BigInt(row.addr) + BigInt(row.len) > 65536n) return null;
  if (object.kind === 'pipe') return pipe_waits_for(drawn, state, alive, row, descriptor);
  return object.kind === 'eventfd' ? eventfd_waits_for(state, row, object.name) : null;
}

// Returns the events that a descriptor is ready for (poll(2)).
function ready_events(drawn, state, alive, {name, end, object}) {
  if (object.kind === 'file') return 1 | 4;
  if (object.kind === 'eventfd') return (counter_of(state, name) > 0n ? 1 : 0) | (counter_of(state, name) < MOST_COUNT ? 4 : 0);
  const {filled, free} = filling_of(state, object);
  if (end === 'r') return (filled > 0 ? 1 : 0) | (has_end(drawn, state, alive, `${name}:w`) ? 0 : 16);
  return (free > 0 ? 4 : 0) | (has_end(drawn, state, alive, `${name}:r`) ? 0 : 8);
}

function poll_waits_for(drawn, state, alive, row, descriptor) {
  if (!descriptor || ready_events(drawn, state, alive, descriptor) & (row.opflags | 8 | 16)) return null;
  return `${names_in(row.opflags, OPERATION_FLAGS[POLL_ADD]).join(' or ') || 'an event'} of ${descriptor.name}`;
}

function timer_waits_for(state, row) {
  if (BigInt(shown(state, 'clock')) >= BigInt(row.deadline)) return 'the kernel to expire it';
  const counts = row.op === TIMEOUT && row.off !== '0';
  const more = counts ? `, or ${BigInt(row.off) + BigInt(row.base) - BigInt(shown(state, 'counted'))} more completions` : '';
  return `the clock to reach ${row.deadline}${more}`;
}

// Returns what a row waits for, one of those that have not completed.
function waits_for(drawn, state, alive, row) {
  if (phase_of(row, state.moment) === 'queued') return queued_waits_for(alive, row);
  if (row.op === TIMEOUT || row.op === LINK_TIMEOUT) return timer_waits_for(state, row);
  const descriptor = descriptor_at(drawn, row.fd), is_transfer = row.op === READ || row.op === WRITE;
  const object_event = row.op === POLL_ADD ? poll_waits_for(drawn, state, alive, row, descriptor) : null;
  return (is_transfer ? transfer_waits_for(drawn, state, alive, row, descriptor) : object_event) || 'the kernel to finish it';
}
"##;
