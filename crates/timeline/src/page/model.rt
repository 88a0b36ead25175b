//! A part of the page, which tools/page writes from page/model.js.

/// The text of this part.
pub(crate) const TEXT: &str = r##"// The model of a page: the values of all places at a moment,
// computed from those at the first moment and from what each event changed. Nothing here needs a browser.

const ERRORS = {
  2: 'ENOENT', 4: 'EINTR', 5: 'EIO', 9: 'EBADF', 11: 'EAGAIN', 14: 'EFAULT', 16: 'EBUSY', 22: 'EINVAL', 27: 'EFBIG',
  28: 'ENOSPC', 29: 'ESPIPE', 32: 'EPIPE', 62: 'ETIME', 95: 'EOPNOTSUPP', 114: 'EALREADY', 125: 'ECANCELED',
};
const OPCODES = {
  0: 'NOP', 3: 'FSYNC', 6: 'POLL_ADD', 7: 'POLL_REMOVE', 11: 'TIMEOUT', 12: 'TIMEOUT_REMOVE', 14: 'ASYNC_CANCEL',
  15: 'LINK_TIMEOUT', 22: 'READ', 23: 'WRITE',
};
const FLAGS = {
  1: 'FIXED_FILE', 2: 'IO_DRAIN', 4: 'IO_LINK', 8: 'IO_HARDLINK', 16: 'ASYNC', 32: 'BUFFER_SELECT', 64: 'CQE_SKIP_SUCCESS',
};
// The flags of an operation, by its opcode.
const OPERATION_FLAGS = {
  3: {1: 'DATASYNC'}, 6: {1: 'POLLIN', 4: 'POLLOUT', 8: 'POLLERR', 16: 'POLLHUP'}, 11: {1: 'ABS'}, 14: {1: 'ALL', 2: 'FD'}, 15: {1: 'ABS'},
};
const RING_FLAGS = {1: 'NEED_WAKEUP', 2: 'CQ_OVERFLOW'};
const DRAIN = 2, HARDLINK = 8;
const FSYNC = 3, POLL_ADD = 6, TIMEOUT = 11, LINK_TIMEOUT = 15, READ = 22, WRITE = 23;
const REGION_SIZE = 65536, NO_OFFSET = '18446744073709551615';

// ---- places

// The words of places whose values are bytes, with the number of words before a byte's index.
const REGION_WORDS = {mem: 1, file: 2, durable: 2, pipe: 2};

// Returns the region of a byte's place, with the index of its first and its last byte, or null. A place is 'mem 5',
// 'file NAME 0..7' or another word, with an index or a name.
function bytes_at(place) {
  const words = place.split(' '), size = REGION_WORDS[words[0]];
  if (size === undefined || words.length !== size + 1) return null;
  const [first, last] = words[size].split('..');
  return {region: words.slice(0, size).join(' '), first: Number(first), last: Number(last === undefined ? first : last)};
}

// ---- bytes

function from_base64(text) {
  const letters = atob(text), bytes = new Uint8Array(letters.length);
  for (let i = 0; i < letters.length; i += 1) bytes[i] = letters.charCodeAt(i);
  return bytes;
}

function from_hex(text) {
  const bytes = new Uint8Array(text.length / 2);
  for (let i = 0; i < bytes.length; i += 1) bytes[i] = parseInt(text.substr(2 * i, 2), 16);
  return bytes;
}

// Each byte in hex, and as text: a dot for each that is no printable ASCII character.
const BYTES = [...Array(256).keys()];
const HEX = BYTES.map((byte) => byte.toString(16).padStart(2, '0'));
const TEXT = BYTES.map((byte) => (byte >= 32 && byte < 127 ? String.fromCharCode(byte) : '.'));
const hex_of = (bytes) => Array.from(bytes, (byte) => HEX[byte]).join('');
const text_of = (bytes) => Array.from(bytes, (byte) => TEXT[byte]).join('');

// ---- entries, completions and results

// Returns an entry of 64 bytes in hex by its fields (struct io_uring_sqe).
function entry_of(text) {
  const bytes = new DataView(from_hex(text).buffer);
  return {
    op: bytes.getUint8(0), flags: bytes.getUint8(1), fd: bytes.getInt32(4, true),
    off: String(bytes.getBigUint64(8, true)), addr: String(bytes.getBigUint64(16, true)), len: bytes.getUint32(24, true),
    opflags: bytes.getUint32(28, true), user: String(bytes.getBigUint64(32, true)),
  };
}

// Returns a completion of 16 bytes in hex by its fields (struct io_uring_cqe).
function completion_of(text) {
  const bytes = new DataView(from_hex(text).buffer);
  return {user: String(bytes.getBigUint64(0, true)), result: bytes.getInt32(8, true), flags: bytes.getUint32(12, true)};
}

const name_of = (op) => OPCODES[op] || `op ${op}`;
const names_in = (flags, names) => Object.keys(names).filter((bit) => flags & bit).map((bit) => names[bit]);
const result_text = (result) => (ERRORS[-result] ? `${result} ${ERRORS[-result]}` : String(result));
const flags_text = (word, flags, names) => (flags ? `${word} ${[flags, ...names_in(flags, names)].join(' ')}` : '');

function entry_text(entry) {
  const parts = [`${name_of(entry.op)} ud ${entry.user}`, flags_text('flags', entry.flags, FLAGS)];
  if (entry.op !== 0) parts.push(`fd ${entry.fd} off ${entry.off === NO_OFFSET ? '-1' : entry.off} addr ${entry.addr} len ${entry.len}`);
  parts.push(flags_text('opflags', entry.opflags, OPERATION_FLAGS[entry.op] || {}));
  return parts.filter((it) => it).join(', ');
}

function completion_text(completion) {
  return `ud ${completion.user}, result ${result_text(completion.result)}${completion.flags ? `, flags ${completion.flags}` : ''}`;
}

// Returns a value in words, or null where it is readable as it is.
function decoded(place, value) {
  const word = place.split(' ')[0];
  if (value === 'absent' || value === 'none') return null;
  if (word === 'slot') return /^0*$/.test(value) ? 'empty' : entry_text(entry_of(value));
  if (word === 'cqe') return /^0*$/.test(value) ? 'empty' : completion_text(completion_of(value));
  if (word === 'got' || word === 'backlog') return completion_text(completion_of(value));
  if (word === 'sq.flags') return [value, ...names_in(Number(value), RING_FLAGS)].join(' ');
  if (word === 'last') return result_text(Number(value));
  if (word === 'stage' && value.startsWith('waiting')) {
    const [, submitted, needed] = value.split(' ');
    return `waits in an enter that submitted ${submitted}, for ${needed} completions`;
  }
  if (word === 'row') return row_value_text(value);
  return null;
}

function row_value_text(value) {
  const [, op, , user, , chain, phase, result] = value.split(' ');
  return `${name_of(Number(op))} ud ${user}, chain ${chain}, ${phase === 'ended' ? `completed with ${result_text(Number(result))}` : phase}`;
}

// ---- the values at a moment

// Returns the values at the first moment: a map of texts by place, and the bytes of each region.
function first_state(drawn) {
  const state = {moment: drawn.from, values: new Map(drawn.values), regions: new Map()};
  state.regions.set('mem', new Uint8Array(REGION_SIZE));
  for (const {name, kind, capacity} of drawn.objects) {
    if (kind === 'pipe') state.regions.set(`pipe ${name}`, new Uint8Array(capacity));
    if (kind !== 'file') continue;
    state.regions.set(`file ${name}`, new Uint8Array(REGION_SIZE));
    state.regions.set(`durable ${name}`, new Uint8Array(REGION_SIZE));
  }
  for (const [place, text] of drawn.regions) {
    const {region, first} = bytes_at(place);
    state.regions.get(region).set(from_base64(text), first);
  }
  return state;
}

// Writes bytes in base64 into a region, but for those that are marked, and marks them.
function put_bytes(region, marks, {first, last}, text) {
  const begin = marks.indexOf(0, first);
  if (begin < 0 || begin > last) return;
  const letters = atob(text);
  for (let i = begin; i <= last; i += 1) {
    if (!marks[i]) region[i] = letters.charCodeAt(i - first);
  }
  marks.fill(1, first, last + 1);
}

// Writes the value of a place, unless one was written before: the places in `written` have theirs, as have marked bytes.
function put(state, {places, marks}, place, value) {
  if (places.has(place)) return;
  places.add(place);
  const bytes = bytes_at(place);
  if (bytes) {
    const region = state.regions.get(bytes.region);
    if (!marks.has(bytes.region)) marks.set(bytes.region, new Uint8Array(region.length));
    put_bytes(region, marks.get(bytes.region), bytes, value);
  } else if (value === 'absent') {
    state.values.delete(place);
  } else {
    state.values.set(place, value);
  }
}

// Moves a state forwards or back to another moment. It goes from that moment's events to those of the moment before, so
// that it writes each place once.
function go_to(drawn, state, moment) {
  const target = Math.max(drawn.from, Math.min(drawn.to, moment)), is_forward = target > state.moment;
  const [low, high] = is_forward ? [state.moment, target] : [target, state.moment];
  const steps_between = drawn.steps.slice(low - drawn.from, high - drawn.from), written = {places: new Set(), marks: new Map()};
  for (const step of is_forward ? steps_between.reverse() : steps_between) {
    for (const [place, old, now] of step.changes) put(state, written, place, is_forward ? now : old);
  }
  state.moment = target;
  return state;
}

// Returns the value of a place as the command `show` prints it.
function shown(state, place) {
  const bytes = bytes_at(place);
  if (!bytes) return state.values.has(place) ? state.values.get(place) : 'absent';
  const region = state.regions.get(bytes.region);
  return region && bytes.last < region.length ? hex_of(region.subarray(bytes.first, bytes.last + 1)) : 'absent';
}
const number_at = (state, place) => Number(shown(state, place));

// ---- parts of a state

// Returns the submission entries that wait, oldest first: the index of each in the ring, its slot and its entry.
function waiting_entries(drawn, state) {
  const head = number_at(state, 'sq.head'), tail = number_at(state, 'sq.tail'), found = [];
  for (let word = head; word !== tail && found.length < drawn.entries; word = (word + 1) % 2 ** 32) {
    const index = word % drawn.entries, slot = shown(state, `array ${index}`), raw = shown(state, `slot ${slot}`);
    found.push({index, slot, raw, entry: raw === 'absent' ? null : entry_of(raw)});
  }
  return found;
}

// Returns the completions that wait to be reaped, oldest first.
function waiting_completions(drawn, state) {
  const head = number_at(state, 'cq.head'), tail = number_at(state, 'cq.tail'), found = [];
  for (let word = head; word !== tail && found.length < drawn.completions; word = (word + 1) % 2 ** 32) {
    const index = word % drawn.completions, raw = shown(state, `cqe ${index}`);
    found.push({index, raw, completion: completion_of(raw)});
  }
  return found;
}

// Returns the overflowed completions that wait in the backlog, oldest first.
function backlog_of(state) {
  const found = [];
  for (let index = number_at(state, 'bfront'); state.values.has(`backlog ${index}`); index += 1) {
    const raw = shown(state, `backlog ${index}`);
    found.push({index, raw, completion: completion_of(raw)});
  }
  return found;
}

const phase_of = (row, moment) => {
  if (row.queued > moment) return 'absent';
  if (row.ended !== null && row.ended <= moment) return 'ended';
  return row.issued !== null && row.issued <= moment ? 'issued' : 'queued';
};

// Returns whether a row has been queued and has not completed.
const is_alive = (row, moment) => ['queued', 'issued'].includes(phase_of(row, moment));
const rows_alive = (drawn, moment) => drawn.rows.filter((row) => is_alive(row, moment));

// ---- dumps

const DUMP_LINE = 16;
const line_of = (index) => Math.floor(index / DUMP_LINE);

// Returns the lines of a dump of the memory that have bytes of a buffer, at most `most` of them.
function lines_of_buffer(first, count, most) {
  const end = Math.min(REGION_SIZE, first + Math.max(1, count)), lines = [];
  for (let line = line_of(first); line * DUMP_LINE < end && lines.length < most; line += 1) lines.push(line);
  return lines;
}

// ---- search

// Returns whether a change has this place, or bytes that include it.
function changes_place([place], wanted) {
  if (place === wanted) return true;
  const bytes = bytes_at(place), other = bytes_at(wanted);
  return Boolean(bytes && other && bytes.region === other.region && bytes.first <= other.last && other.first <= bytes.last);
}

// Returns the indexes of the events that queued, issued and completed a row.
const events_of_row = (row) => [row.queued, row.issued, row.ended].filter((it) => it !== null && it > 0).map((it) => it - 1);

const has_user = (step, user) => new RegExp(`\\bud ${user}(?!\\d)`).test(step.does)
  || step.changes.some(([place, , now]) => /^got /.test(place) && now !== 'none' && completion_of(now).user === user);

// Returns the rows and a test of events that a query is about. A query is 'row 12', 'ud 7', an operation, an error, a
// place, a kind of finding, or any words of an event.
function meaning_of(drawn, query) {
  const [word, number] = query.toLowerCase().split(/\s+/), upper = query.toUpperCase(), has_number = /^\d+$/.test(number);
  if (word === 'row' && has_number) {
    return {rows: (row) => row.row === Number(number), test: (step) => step.changes.some((it) => it[0] === `row ${number}`)};
  }
  if (word === 'ud' && has_number) return {rows: (row) => row.user === number, test: (step) => has_user(step, number)};
  const error = Object.keys(ERRORS).find((it) => ERRORS[it] === upper || `-${it}` === query);
  if (error !== undefined) {
    const value = `-${error}`;
    return {
      rows: (row) => row.result === Number(value), only_end: true,
      test: (step) => step.changes.some(([place, , now]) => /^last /.test(place) && now === value),
    };
  }
  const has_word = new RegExp(`(^|[ ,])${query.replace(/[^\w.]/g, '\\$&')}($|[ ,])`, 'i');
  return {
    rows: (row) => row.name === upper,
    test: (step) => has_word.test(step.does) || has_word.test(step.event) || step.changes.some((it) => changes_place(it, query)),
  };
}

// Returns the indexes of the events that a query finds, in order.
function found_by(drawn, query) {
  const text = query.trim().replace(/\s+/g, ' '), found = new Set();
  if (!text) return [];
  const meaning = meaning_of(drawn, text);
  for (const row of drawn.rows.filter(meaning.rows)) {
    for (const index of meaning.only_end ? events_of_row(row).slice(-1) : events_of_row(row)) found.add(index);
  }
  drawn.steps.forEach((step, k) => {
    if (meaning.test(step)) found.add(drawn.from + k);
  });
  const drawn_events = [...found].filter((index) => index >= drawn.from && index < drawn.to);
  const moments = drawn.findings.filter((finding) => finding.kind === text).map((it) => it.moment);
  return [...new Set([...drawn_events, ...moments.filter((it) => it >= drawn.from && it <= drawn.to)])].sort((one, other) => one - other);
}
"##;
