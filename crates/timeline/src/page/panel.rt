//! A part of the page, which tools/page writes from page/panel.js.

/// The text of this part.
pub(crate) const TEXT: &str = r##"// The text next to the picture: the findings,
// and the state at the moment.

const code = (text) => element('code', {}, plain(text));
const heading = (text) => element('h3', {}, plain(text));
const paragraph = (text, kind = '') => element('p', kind ? {class: kind} : {}, plain(text));
const cells = (values) => element('tr', {}, values.map((it) => element('td', {}, it)).join(''));
function table(heads, lines) {
  const head = element('thead', {}, element('tr', {}, heads.map((it) => element('th', {scope: 'col'}, it)).join('')));
  return element('table', {}, head + element('tbody', {}, lines.map(cells).join('')));
}
const list = (items) => element('ul', {}, items.map((it) => element('li', {}, it)).join(''));

// Returns a value in words, with the raw bytes below it if they are requested.
function value_html(place, value) {
  const words = decoded(place, value);
  if (words === null) return plain(value);
  return plain(words) + (view.raw ? element('code', {class: 'raw'}, plain(value)) : '');
}

// ---- findings

// The most findings in the list, and above the state.
const MOST_FINDINGS = 500, MOST_HERE = 12;

function findings_html() {
  if (!findings.length) return paragraph('No findings.', 'faint');
  const more = findings.length > MOST_FINDINGS ? paragraph(`and ${findings.length - MOST_FINDINGS} more`, 'faint') : '';
  return element('ol', {}, findings.slice(0, MOST_FINDINGS).map((it, k) => element('li', {}, element('button', {
    type: 'button', class: `finding ${it.fault ? 'is_fault' : 'is_note'}`, 'data-finding': k, 'data-moment': it.moment,
  }, `<b>${plain(it.kind)}</b> <span class="faint">${when(it)}, ${it.fault ? 'fault' : 'note'}</span><span class="text">${plain(it.text)}</span>`))).join('')) + more;
}

// Marks the findings at the moment in the list, and brings the first fault or note of them into view.
let current = [];
function show_findings() {
  const box = by_id('findings');
  for (const button of current) button.removeAttribute('aria-current');
  current = [...box.querySelectorAll(`[data-moment="${view.moment}"]`)];
  for (const button of current) button.setAttribute('aria-current', 'true');
  const first = current.find((it) => it.classList.contains('is_fault')) || current[0];
  if (first) box.scrollTop = first.offsetTop - box.offsetTop - 4;
}

// ---- rings

const RING = {size: 168, outer: 62, inner: 38, most: 64};

function sector(k, count, inner, outer) {
  const angle = (i) => 2 * Math.PI * i / count - Math.PI / 2, middle = RING.size / 2, wide = count < 2 ? 0.999 : 1;
  const at = (i, r) => `${round(middle + r * Math.cos(angle(i)))} ${round(middle + r * Math.sin(angle(i)))}`;
  const large = count < 2 ? 1 : 0;
  return `M${at(k, inner)}L${at(k, outer)}A${outer} ${outer} 0 ${large} 1 ${at(k + wide, outer)}L${at(k + wide, inner)}A${inner} ${inner} 0 ${large} 0 ${at(k, inner)}z`;
}

function pointer(word, count, radius, label) {
  const angle = 2 * Math.PI * (word % count) / count - Math.PI / 2, middle = RING.size / 2;
  const x = middle + radius * Math.cos(angle), y = middle + radius * Math.sin(angle);
  const line = element('line', {class: 'pointer', x1: round(middle + RING.inner * Math.cos(angle)), y1: round(middle + RING.inner * Math.sin(angle)), x2: round(x), y2: round(y)});
  return line + element('text', {class: 'small', x: round(x + 6 * Math.cos(angle)), y: round(y + 8 * Math.sin(angle) + 4), 'text-anchor': 'middle'}, label);
}

// Draws a ring: its sectors, those that wait filled and with their user_data, and where its head and tail are. A ring of
// more than 64 entries is drawn with 64 sectors.
function ring(name, count, head, tail, waiting) {
  const sectors = Math.min(count, RING.most), filled = new Map(), out = [];
  waiting.forEach(({index, user}) => filled.set(Math.floor(index * sectors / count), user));
  for (let k = 0; k < sectors; k += 1) {
    const user = filled.get(k), angle = 2 * Math.PI * (k + 0.5) / sectors - Math.PI / 2, r = (RING.inner + RING.outer) / 2;
    out.push(element('path', {class: user === undefined ? 'sector' : 'sector full', d: sector(k, sectors, RING.inner, RING.outer)}));
    if (user !== undefined && sectors <= 16 && user.length < 5) {
      const x = round(RING.size / 2 + r * Math.cos(angle)), y = round(RING.size / 2 + r * Math.sin(angle) + 4);
      out.push(element('text', {class: 'on_full', x, y, 'text-anchor': 'middle'}, plain(user)));
    }
  }
  const same = head % count === tail % count;
  out.push(pointer(head, count, RING.outer + 8, same ? 'head tail' : 'head'), same ? '' : pointer(tail, count, RING.outer + 8, 'tail'));
  out.push(element('text', {class: 'middle', x: RING.size / 2, y: RING.size / 2 + 4, 'text-anchor': 'middle'}, `${waiting.length}/${count}`));
  const label = `${name}: head ${head}, tail ${tail}, ${waiting.length} of ${count} in use`;
  return element('figure', {}, element('svg', {width: RING.size, height: RING.size, role: 'img', 'aria-label': label, class: 'ring'}, out.join(''))
    + element('figcaption', {}, `${name}<br><span class="faint">head ${head}, tail ${tail}</span>`));
}

const with_raw = (words, raw) => plain(words) + (view.raw ? element('code', {class: 'raw'}, raw) : '');

function rings_html(state) {
  const sqes = waiting_entries(run, state), cqes = waiting_completions(run, state), backlog = backlog_of(state);
  const number = (place) => number_at(state, place), flags = shown(state, 'sq.flags'), dropped = shown(state, 'sq.dropped');
  const sq_users = sqes.map(({index, entry}) => ({index, user: entry ? entry.user : '?'}));
  const cq_users = cqes.map(({index, completion}) => ({index, user: completion.user}));
  const out = [element('div', {class: 'rings'},
    ring('submission ring', run.entries, number('sq.head'), number('sq.tail'), sq_users)
    + ring('completion ring', run.completions, number('cq.head'), number('cq.tail'), cq_users))];
  const some = (title, items) => (items.length ? paragraph(title, 'faint') + list(items.slice(0, 64)) : '');
  out.push(some('Entries that wait to be taken:', sqes.map(({slot, entry, raw}) => with_raw(`slot ${slot}: ${entry ? entry_text(entry) : 'none'}`, raw))));
  out.push(some('Completions that wait to be reaped:', cqes.map(({completion, raw}) => with_raw(completion_text(completion), raw))));
  out.push(some('In the backlog:', backlog.map(({index, completion, raw}) => with_raw(`${index}: ${completion_text(completion)}`, raw))));
  const words = [`flags ${decoded('sq.flags', flags)}`, `dropped ${dropped}`, `backlog ${backlog.length}`];
  return heading('Rings') + out.join('') + paragraph(words.join(', '), 'faint');
}

// ---- threads and rows

function thread_lines(state) {
  return run.programs.map((program, t) => {
    const counter = number_at(state, `pc ${t}`), stage = shown(state, `stage ${t}`);
    const next = program[counter] === undefined ? 'at its end' : `${counter}: ${program[counter]}`;
    const waiting = stage === 'ready' ? '' : `<br>${plain(decoded(`stage ${t}`, stage))}`;
    return [plain(t), plain(next) + waiting, value_html(`last ${t}`, shown(state, `last ${t}`)), value_html(`got ${t}`, shown(state, `got ${t}`))];
  });
}

function threads_html(state) {
  const poller = state.values.has('poller') ? paragraph(`The poller is ${shown(state, 'poller')}.`) : '';
  return heading('Threads') + table(['', 'next', 'last', 'got'], thread_lines(state)) + poller
    + paragraph(`clock ${shown(state, 'clock')} ns, counted ${shown(state, 'counted')}`, 'faint');
}

function row_words(row) {
  const fields = {op: row.op, flags: row.flags, fd: row.fd, off: row.off, addr: row.addr, len: row.len, opflags: row.opflags, user: row.user};
  return entry_text(fields).replace(/^op \d+/, row.name);
}

function rows_html(state) {
  const alive = rows_alive(run, state.moment), lines = alive.slice(0, 100).map((row) => [
    element('button', {type: 'button', class: 'row', 'data-row': row.row}, row.row), plain(row_words(row)),
    `${phase_of(row, state.moment)}; waits for ${plain(waits_for(run, state, alive, row))}`,
  ]);
  const more = alive.length > 100 ? paragraph(`and ${alive.length - 100} more`, 'faint') : '';
  return heading('Rows that have not completed') + (lines.length ? table(['row', 'request', 'state'], lines) + more : paragraph('none', 'faint'));
}

// ---- bytes

// Returns the runs of bytes that an event changed, each with its region.
const changed_runs = (step) => (step ? step.changes : []).map(([place]) => bytes_at(place)).filter((it) => it);
const has_byte = (runs, region, index) => runs.some((it) => it.region === region && it.first <= index && index <= it.last);

// The most lines of a file or a pipe that are shown.
const most_lines = () => (view.raw ? 256 : 16);

const ESCAPED = TEXT.map(plain);

// Returns a line of 16 bytes in hex and as text, with the changed ones marked.
function dump_line(bytes, line, is_changed) {
  const start = line * DUMP_LINE, end = Math.min(bytes.length, start + DUMP_LINE), width = 2 * DUMP_LINE + 3;
  let hex = '', text = '', pad = width;
  for (let index = start; index < end; index += 1) {
    const byte = bytes[index], is_marked = is_changed(index), space = index > start && index % 4 === 0 ? ' ' : '';
    hex += space + (is_marked ? `<mark>${HEX[byte]}</mark>` : HEX[byte]);
    text += is_marked ? `<mark>${ESCAPED[byte]}</mark>` : ESCAPED[byte];
    pad -= space.length + 2;
  }
  return `<span class="faint">${String(start).padStart(5)}</span>  ${hex}${' '.repeat(pad)}  ${text}`;
}
const dump = (bytes, lines, is_changed) => element('pre', {class: 'dump'}, lines.map((line) => dump_line(bytes, line, is_changed)).join('\n'));

// Returns the numbers of the lines to show: those with changed bytes, and the first ones.
function lines_of(runs, region, size_of_region) {
  const count = Math.ceil(size_of_region / DUMP_LINE), lines = new Set();
  for (const it of runs.filter((changed) => changed.region === region)) {
    for (let line = line_of(it.first); line <= line_of(it.last) && line < count && lines.size < most_lines() - 2; line += 1) lines.add(line);
  }
  for (let line = 0; line < count && lines.size < most_lines(); line += 1) lines.add(line);
  return [...lines].sort((one, other) => one - other);
}

function are_equal(one, other) {
  let k = 0;
  while (k < one.length && one[k] === other[k]) k += 1;
  return one.length === other.length && k === one.length;
}

function contents_html(bytes, region, runs) {
  const lines = lines_of(runs, region, bytes.length), more = Math.ceil(bytes.length / DUMP_LINE) - lines.length;
  return dump(bytes, lines, (index) => has_byte(runs, region, index)) + (more > 0 ? paragraph(`and ${more} more lines`, 'faint') : '');
}

function file_html(state, {name}, runs) {
  const bytes = state.regions.get(`file ${name}`).subarray(0, number_at(state, `len ${name}`));
  const durable = state.regions.get(`durable ${name}`).subarray(0, number_at(state, `dlen ${name}`));
  const positions = run.descriptors.map((it, k) => [it, k + 3]).filter(([it]) => it === name)
    .map(([, fd]) => `descriptor ${fd}${shown(state, `open ${fd}`) === '1' ? '' : ' closed'} at ${shown(state, `pos ${fd}`)}`);
  const is_durable = are_equal(bytes, durable), kept = is_durable ? 'all durable' : `not all durable (${durable.length} bytes)`;
  const out = [paragraph([`${name}: ${bytes.length} bytes, ${kept}`, ...positions].join('; ')), contents_html(bytes, `file ${name}`, runs)];
  if (!is_durable && durable.length) out.push(paragraph('durable:', 'faint'), contents_html(durable, `durable ${name}`, runs));
  return out.join('');
}

function pipe_html(state, {name, capacity}, runs) {
  const put_count = number_at(state, `put ${name}`), taken = number_at(state, `taken ${name}`), region = `pipe ${name}`;
  const held = put_count - taken, bytes = new Uint8Array(Math.min(held, most_lines() * DUMP_LINE)), all = state.regions.get(region);
  for (let k = 0; k < bytes.length; k += 1) bytes[k] = all[(taken + k) % capacity];
  const is_changed = (k) => has_byte(runs, region, (taken + k) % capacity);
  return paragraph(`${name}: ${held} of ${capacity} bytes, put ${put_count}, taken ${taken}`)
    + (held ? dump(bytes, [...Array(Math.ceil(bytes.length / DUMP_LINE)).keys()], is_changed) : '');
}

function objects_html(state, runs) {
  const parts = run.objects.map((object) => {
    if (object.kind === 'file') return file_html(state, object, runs);
    if (object.kind === 'pipe') return pipe_html(state, object, runs);
    return paragraph(`${object.name}: counter ${shown(state, `event ${object.name}`)}`);
  });
  return parts.length ? heading('Files, pipes and eventfds') + parts.join('') : '';
}

// Returns the lines of memory around the buffers and times of rows that have not completed, and around what changed.
function memory_lines(state, runs) {
  const lines = new Set();
  const add = (first, count) => {
    for (const line of lines_of_buffer(first, count, 2 * most_lines() - lines.size)) lines.add(line);
  };
  for (const it of runs.filter((changed) => changed.region === 'mem')) add(it.first, Math.min(256, it.last - it.first + 1));
  for (const row of rows_alive(run, state.moment)) {
    if (row.op === READ || row.op === WRITE) add(Number(row.addr), row.len);
    if (row.op === TIMEOUT || row.op === LINK_TIMEOUT) add(Number(row.addr), 16);
  }
  return [...lines].sort((one, other) => one - other);
}

function memory_html(state, runs) {
  const lines = memory_lines(state, runs), is_changed = (index) => has_byte(runs, 'mem', index);
  return heading('Memory around the buffers in use')
    + (lines.length ? dump(state.regions.get('mem'), lines, is_changed) : paragraph('none in use', 'faint'));
}

// ---- the whole panel

const MOST_CHANGES = 200;

// Returns a change in a table: bytes in hex and as text, any other value in words.
function change_cells([place, old, now]) {
  if (!bytes_at(place)) return [plain(place), value_html(place, old), value_html(place, now)];
  const side = (value) => {
    const bytes = from_base64(value), front = bytes.subarray(0, view.raw ? 4096 : 32), more = bytes.length > front.length ? '..' : '';
    return `${element('code', {}, hex_of(front) + more)}<br>${plain(text_of(front) + more)}`;
  };
  return [plain(place), side(old), side(now)];
}

function changes_html(step, title) {
  if (!step) return '';
  const lines = step.changes.slice(0, MOST_CHANGES).map(change_cells);
  const more = step.changes.length > MOST_CHANGES ? paragraph(`and ${step.changes.length - MOST_CHANGES} more`, 'faint') : '';
  return heading(title) + (lines.length ? table(['place', 'before', 'after'], lines) + more : paragraph('It changes nothing.', 'faint'));
}

function here_html(next) {
  const text = next ? `Moment ${view.moment}: before event ${view.moment}, ${next.does}` : `Moment ${view.moment}: the end of this part`;
  const here = findings.filter((it) => it.moment === view.moment).sort((one, other) => other.fault - one.fault);
  return element('h2', {}, plain(text)) + `<p class="faint">${code(`goto ${view.moment}`)} shows this state in a session.</p>`
    + here.slice(0, MOST_HERE).map((it) => element('p', {class: `here ${it.fault ? 'is_fault' : 'is_note'}`}, `<b>${plain(it.kind)}</b> ${it.since ? `<span class="faint">${when(it)}</span> ` : ''}${plain(it.text)}`)).join('')
    + (here.length > MOST_HERE ? paragraph(`and ${here.length - MOST_HERE} more`, 'faint') : '');
}

function show_panel() {
  go_to(run, now_state, view.moment);
  const next = steps[view.moment - from], runs = changed_runs(steps[view.moment - 1 - from]);
  by_id('state').innerHTML = [
    here_html(next), changes_html(next, 'What this event changes'), rings_html(now_state), threads_html(now_state), rows_html(now_state),
    objects_html(now_state, runs), memory_html(now_state, runs),
  ].join('');
  by_id('raw').setAttribute('aria-pressed', view.raw);
  show_findings();
}
"##;
