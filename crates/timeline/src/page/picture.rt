//! A part of the page, which tools/page writes from page/picture.js.

/// The text of this part.
pub(crate) const TEXT: &str = r##"// Draws the picture: the axis with the findings,
// the lanes, and the strip that shows the whole run.

const ENTITIES = {'&': '&amp;', '<': '&lt;', '>': '&gt;', '"': '&quot;'};
const plain = (text) => String(text).replace(/[&<>"]/g, (it) => ENTITIES[it]);
const within = (low, n, high) => Math.max(low, Math.min(n, high));
const round = (n) => Math.round(n * 10) / 10;
const element = (name, attributes, inner = '') =>
  `<${name}${Object.keys(attributes).map((key) => ` ${key}="${attributes[key]}"`).join('')}>${inner}</${name}>`;
const titled = (text) => element('title', {}, plain(text));
const small = (x, y, text, anchor = 'start') => element('text', {class: 'small', x: round(x), y, 'text-anchor': anchor}, plain(text));
const rect = (kind, x, y, width, height, inner = '') =>
  element('rect', {class: kind, x: round(x), y, width: round(width), height}, inner);

// The distances in moments that the ticks of the axis may have.
const APART = [].concat(...[1, 10, 100, 1e3, 1e4, 1e5].map((power) => [power, 2 * power, 5 * power]));

// Return the x of a moment, and the x at which a period begins or ends at that moment: the middle of the event before it.
const x_of = (moment) => labels_width() + (moment - view.left) * view.column;
const x_since = (moment) => x_of(moment) - (moment > from ? view.column / 2 : 0);
const x_until = (moment) => (moment === null || moment > to ? x_of(to) : x_since(moment));

// ---- marks of events

// The shapes of marks around a point. A step of a thread has the shape of its instruction. Every other event is round or
// a bar.
const SHAPES = {
  put: (x, y, r) => `M${x - r} ${y - r}h${2 * r}v${2 * r}h${-2 * r}z`,
  push: (x, y, r) => `M${x} ${y - r - 1}L${x + r + 1} ${y + r}H${x - r - 1}z`,
  reap: (x, y, r) => `M${x} ${y + r + 1}L${x + r + 1} ${y - r}H${x - r - 1}z`,
  store: (x, y, r) => `M${x} ${y - r - 1}L${x + r + 1} ${y}L${x} ${y + r + 1}L${x - r - 1} ${y}z`,
  close: (x, y, r) => [[-1, -1], [-1, 1]].map(([a, b]) =>
    `M${x + a * r - 1} ${y + b * r}L${x - a * r - 1} ${y - b * r}h2L${x + a * r + 1} ${y + b * r}z`).join(''),
  round: (x, y, r) => `M${x - r - 1} ${y}a${r + 1} ${r + 1} 0 1 0 ${2 * r + 2} 0a${r + 1} ${r + 1} 0 1 0 ${-2 * r - 2} 0z`,
  bar: (x, y, r) => `M${x - 1.5} ${y - r - 3}h3v${2 * r + 6}h-3z`,
  thin: (x, y) => `M${x - 0.6} ${y - 7}h1.2v14h-1.2z`,
};
function shape_of(step) {
  const word = step.does.split(/[ ,]/)[0];
  if (step.word === 'step') return SHAPES[word] ? word : 'round';
  return step.word === 'issue' || step.word === 'tick' ? 'bar' : 'round';
}

// Returns a value as the log prints it, cut if it is long. 28 letters of base64 are 21 bytes.
function shortened(place, value) {
  const text = bytes_at(place) ? hex_of(from_base64(value.slice(0, 28))) : value;
  return text.length > 36 ? `${text.slice(0, 36)}..` : text;
}
function step_title(step) {
  if (step.title) return step.title;
  const lines = step.changes.slice(0, 12).map(([place, old, now]) => `  ${place} ${shortened(place, old)} -> ${shortened(place, now)}`);
  step.title = titled([`event ${step.index}: ${step.does}`, ...lines, ...(step.changes.length > 12 ? ['  ..'] : [])].join('\n'));
  return step.title;
}

function mark(step, y) {
  const x = round(x_of(step.index) + view.column / 2), r = round(within(1, view.column / 3 - 1, 4.5));
  const shape = shape_of(step), hollow = shape === 'round' && step.word !== 'sleep';
  const kinds = [hollow ? 'hollow' : 'mark', view.is_found.has(step.index) ? 'found' : ''].join(' ').trim();
  return element('path', {class: kinds, d: SHAPES[shape](x, y, r)}, step_title(step));
}

// Calls a function with each event in view of the lanes from `a` to `b`, the number of its lane, and its y.
function each_event(place, a, b, call) {
  for (let i = place.low - from; i < Math.min(steps.length, place.high - from + 1); i += 1) {
    const k = place.index.get(steps[i].key);
    if (k >= a && k <= b) call(steps[i], k, place.y_of(k) + place.lanes[k].height / 2 + (steps[i].key === 'clock' ? 7 : 0));
  }
}

// Returns the marks of events in narrow columns: bars, of which those at one pixel are one.
function thin_marks(place, a, b) {
  const paths = {mark: [], found: []}, drawn = new Map();
  each_event(place, a, b, (step, k, y) => {
    const x = Math.round(x_of(step.index) + view.column / 2), is_found = view.is_found.has(step.index);
    if (drawn.get(k) === x && !is_found) return;
    drawn.set(k, x);
    paths[is_found ? 'found' : 'mark'].push(SHAPES.thin(x, y));
  });
  return Object.keys(paths).map((kind) => element('path', {class: `mark ${kind}`, d: paths[kind].join('')})).join('');
}

// Returns the marks of the events in view.
function event_marks(place, a, b) {
  if (view.column < 5) return thin_marks(place, a, b);
  const out = [];
  each_event(place, a, b, (step, k, y) => out.push(mark(step, y)));
  return out.join('');
}

// ---- the axis

// Returns the findings of a part of the run in groups, those that would share a mark together.
function finding_groups(x_of_finding, low, high) {
  const groups = [];
  for (const it of findings) {
    if (it.moment < low || it.moment > high) continue;
    const x = x_of_finding(it.moment), last = groups[groups.length - 1];
    if (last && x - last.x < 12) last.all.push(it);
    else groups.push({x, all: [it]});
  }
  return groups;
}

function finding_mark({x, all}, y) {
  const is_fault = all.some((it) => it.fault), at = round(x);
  const shown_texts = all.slice(0, 12).map((it) => `${it.kind} ${when(it)}: ${it.text}`);
  const text = [...shown_texts, ...(all.length > 12 ? [`and ${all.length - 12} more`] : [])].join('\n');
  const several = `${all.length} findings at ${all[0].moment}`;
  const label = all.length > 1 ? several : `${all[0].kind} ${when(all[0])}`;
  const number = all.length > 1 ? element('text', {class: 'count', x: at + 7, y: y + 11}, all.length) : '';
  return element('g', {role: 'img', 'aria-label': plain(label), 'data-moment': all[0].moment},
    titled(text) + element('path', {class: is_fault ? 'fault' : 'note', d: `M${at} ${y}l6 12h-12z`}) + number);
}

function axis(low, high) {
  const out = [], apart = APART.find((n) => n * view.column >= 54) || 1e6;
  for (let m = Math.ceil(low / apart) * apart; m <= high; m += apart) {
    out.push(element('line', {class: 'lane', x1: round(x_of(m)), x2: round(x_of(m)), y1: AXIS - 18, y2: AXIS}));
    out.push(small(x_of(m) + 3, AXIS - 8, m));
  }
  const groups = finding_groups((moment) => x_of(moment) + (moment < to ? view.column / 2 : 0), low, high);
  return out.join('') + groups.map((it) => finding_mark(it, 2)).join('');
}

// ---- lanes

function graph(lane, y, low, high) {
  const base = y + lane.height - 4, tall = lane.height - 12, apart = Math.max(1, Math.floor(1 / view.column));
  const points = [[x_since(low), base]];
  for (let m = low; m <= high; m += apart) {
    let most = 0;
    for (let k = m; k < m + apart && k <= high; k += 1) most = Math.max(most, run.fillings[k - from][lane.part]);
    const top = base - tall * most / lane.most;
    points.push([x_since(m), top], [m + apart <= to ? x_since(m + apart) : x_of(to), top]);
  }
  points.push([points[points.length - 1][0], base]);
  const text = points.map(([x, top]) => `${round(x)},${round(top)}`).join(' ');
  return element('polygon', {class: 'graph', points: text}, titled(`${lane.label}: at most ${lane.most}`));
}

function clock(y, low, high) {
  const out = [];
  let last = -1e9;
  for (let m = low; m <= high; m += 1) {
    const now = run.fillings[m - from][3], before = m > low ? run.fillings[m - from - 1][3] : null;
    if (now === before || x_of(m) - last < 8 * now.length + 30) continue;
    last = x_of(m);
    out.push(small(Math.max(last + 4, labels_width() + 3), y + 12, now));
  }
  return out.join('');
}

function row_text(row) {
  const flags = names_in(row.flags, FLAGS).map((name) => ` ${name}`).join('');
  const issued = row.issued === null ? 'never issued' : `issued at moment ${row.issued}`;
  const ended = row.ended === null ? 'not completed' : `completed at moment ${row.ended} with ${result_text(row.result)}`;
  return `row ${row.row} ${row.name}, user_data ${row.user}, chain ${row.unit}`
    + `${row.target === null ? '' : `, linked timeout of row ${row.target}`}; fd ${row.fd}, off ${row.off}, addr ${row.addr}, `
    + `len ${row.len}, flags ${row.flags}${flags}; queued at moment ${row.queued}, ${issued}, ${ended}`;
}

// Draws a row: hollow while it is queued, filled while it is issued, then its result.
function bar(row, y) {
  const clip = (x) => round(within(-9, x, 1e5)), color = `var(--${row.ending})`;
  const x2 = clip(x_until(row.ended)), x0 = clip(x_since(row.queued)), x1 = row.issued === null ? x2 : clip(x_until(row.issued));
  const out = [titled(row_text(row))];
  if (x1 > x0) out.push(element('rect', {class: 'queued', stroke: color, x: x0, y: y + 7, width: round(x1 - x0), height: 8, rx: 2}));
  if (x2 > x1) out.push(element('rect', {fill: color, x: x1, y: y + 3, width: round(x2 - x1), height: 16, rx: 3}));
  if (row.ended !== null && row.ended <= to) {
    out.push(element('rect', {fill: color, x: x2 - 3, y: y + 2, width: 4, height: 18}), small(x2 + 9, y + 15, result_text(row.result)));
  } else {
    out.push(element('path', {class: 'link', stroke: color, d: `M${x2 - 5} ${y + 6}l5 5l-5 5`}));
  }
  if (row.flags & DRAIN) out.push(rect('mark', x0 - 5, y + 3, 3, 16, titled('IOSQE_IO_DRAIN: waits for all earlier rows')));
  return element('g', {class: 'bar', 'data-row': row.row}, out.join(''));
}

// Returns the row before this one in its chain, or null. A linked timeout is no link of a chain.
function linked_before(row) {
  const other = rows.get(row.row - 1), before = other && other.target !== null ? rows.get(other.target) : other;
  return row.target === null && before && before.unit === row.unit ? before : null;
}

// Draws what connects rows: links of a chain, linked timeouts, and completions by another row's event.
function ties(place, a, b) {
  const out = [], middle = (row) => {
    const k = place.index.get(`row ${row.row}`);
    return k === undefined || k < a - 2 || k > b + 2 ? null : place.y_of(k) + 11;
  };
  const tie = (kind, one, other, x, z, text) => {
    const y = middle(one), end = middle(other);
    if (y === null || end === null) return;
    out.push(element('path', {class: `link ${kind}`, d: `M${round(x)} ${y}V${end - 11}H${round(z)}V${end}`}, titled(text)));
  };
  for (const {row} of place.lanes.slice(a, b + 3)) {
    const before = linked_before(row), target = row.target === null ? null : rows.get(row.target);
    if (before) {
      const hard = before.flags & HARDLINK ? 'hard' : '', x = x_until(before.ended), on = row.issued === null ? row.ended : row.issued;
      tie(hard, before, row, x, Math.max(x, x_until(on)), `${hard} link from row ${before.row} to row ${row.row}`.trim());
    }
    if (target) {
      const x = x_since(row.queued) + 4;
      tie('timeout', target, row, x, x, `row ${row.row} is the linked timeout of row ${row.target}`);
    }
  }
  for (const {cause, row, index} of arrows) {
    const y = middle(cause), end = middle(row), x = round(x_of(index) + view.column / 2), d = row.row > cause.row ? -6 : 6;
    if (y === null || end === null) continue;
    const shaft = `M${x} ${y}V${end}`, head = `M${x - 4} ${end + d}L${x} ${end}L${x + 4} ${end + d}`;
    out.push(element('path', {class: 'link cancel', d: shaft + head}, titled(`event ${index}: row ${cause.row} completed row ${row.row}`)));
  }
  return out.join('');
}

// Draws the periods in which a thread waits or the poller sleeps.
function waits(lane, y, low, high) {
  const out = [];
  let last = -1;
  for (const {since, until, value} of lane.spans) {
    const x = x_since(since), end = until < to ? x_since(until) : x_of(to), pixel = Math.round(end);
    if (until < low || since > high || pixel === last) continue;
    last = pixel;
    const text = `${lane.label} ${lane.does} from moment ${since} to ${until}: ${value}`;
    out.push(rect('wait', x, y + 5, Math.max(2, end - x), lane.height - 10, titled(text)));
  }
  return out.join('');
}

// Returns the drawing of a lane without its marks.
function lane_body(lane, y, low, high) {
  if (lane.spans) return waits(lane, y, low, high);
  if (lane.part !== undefined) return graph(lane, y, low, high);
  if (lane.key === 'clock') return clock(y, low, high);
  return is_in_view(lane.row, last_moment()) ? bar(lane.row, y) : '';
}

function lane_label(lane, k, y) {
  const width = labels_width(), out = [rect(k % 2 ? 'band' : 'cover', 0, y, width, lane.height)];
  const weight = lane.key === view.lane ? 700 : 400;
  const most = Math.floor((width - 8) / 7), short = lane.label.replace('submission', 'sub').replace('completion', 'com');
  const whole = lane.label.length > most ? short : lane.label, label = whole.length > most ? `${whole.slice(0, most - 2)}..` : whole;
  out.push(element('text', {x: 8, y: y + lane.height / 2 + 4, 'font-weight': weight}, plain(label)));
  if (lane.part !== undefined && width > 150) out.push(small(width - 6, y + 13, lane.most, 'end'));
  if (lane.row && 7 * lane.label.length + 6 * lane.row.user.length < width - 36) out.push(small(width - 6, y + 15, `ud ${lane.row.user}`, 'end'));
  return out.join('');
}

// ---- the whole picture

// Returns which part of the picture is in view. The upper lanes do not scroll if they fill at most half of its height.
function frame(place) {
  const width = size.width, height = size.height, pinned = place.head_height <= height / 2;
  const low = within(from, Math.floor(view.left), to), high = within(low, Math.ceil(last_moment()), to);
  const shift = pinned ? 0 : size.top, top = pinned ? place.head_height : AXIS;
  const y_of = (k) => place.lanes[k].top - (k < place.head_count ? shift : size.top);
  const row_at = (y) => place.head_count + Math.floor((y + size.top - place.head_height) / ROW);
  const first = Math.max(place.head_count, row_at(top)), last = Math.min(place.lanes.length - 1, row_at(height));
  return Object.assign(place, {width, pinned, low, high, shift, visible: height, view_top: top, y_of, first, last});
}

// Draws the lanes from `a` to `b`: first what moves sideways, then the labels over it.
function lanes_drawn(place, a, b) {
  const bodies = [], labels = [];
  for (let k = a; k <= b; k += 1) {
    const lane = place.lanes[k], y = place.y_of(k);
    if (k % 2) bodies.push(rect('band', 0, y, place.width, lane.height));
    bodies.push(lane_body(lane, y, place.low, place.high));
    labels.push(lane_label(lane, k, y));
    if (lane.key === view.lane) labels.push(rect('chosen', 1, y, place.width - 2, lane.height));
  }
  if (a >= place.head_count && a <= b) bodies.push(ties(place, a, b));
  bodies.push(event_marks(place, a, b));
  return plot(bodies.join('')) + labels.join('');
}
const plot = (inner) => element('g', {'clip-path': 'url(#plot)'}, inner);

function folded_note(place) {
  if (!place.folded) return '';
  const y = place.height - 6 - size.top, noun = place.folded === 1 ? 'lane' : 'lanes';
  return element('text', {class: 'small folded', x: 8, y}, `${place.folded} ${noun} with nothing in view`);
}

function definitions(place) {
  const stripes = {id: 'hatch', width: 6, height: 6, patternUnits: 'userSpaceOnUse', patternTransform: 'rotate(45)'};
  return element('defs', {}, element('pattern', stripes, rect('stripe', 0, 0, 2, 6))
    + element('clipPath', {id: 'plot'}, rect('', labels_width(), 0, place.width, Math.max(place.visible, place.height))));
}

function draw() {
  const place = frame(layout()), {width, visible, view_top, head_height} = place, line = head_height - 3 - place.shift;
  const box = {x: 0, y: view_top, width, height: Math.max(1, visible - view_top), viewBox: `0 ${view_top} ${width} ${Math.max(1, visible - view_top)}`};
  picture.setAttribute('width', width);
  picture.setAttribute('height', visible);
  const here = rect('picked', x_of(view.moment) - (view.moment < to ? 0 : 2), AXIS, view.moment < to ? Math.max(2, view.column) : 3, visible);
  picture.innerHTML = definitions(place)
    + element('svg', box, lanes_drawn(place, place.first, place.last) + folded_note(place))
    + element('svg', {x: 0, y: 0, width, height: place.pinned ? head_height : visible},
      (place.pinned ? rect('cover', 0, 0, width, head_height) : '') + lanes_drawn(place, 0, place.head_count - 1)
      + element('line', {class: 'lane', x1: 0, x2: width, y1: line, y2: line}))
    + plot(here) + rect('cover', 0, 0, width, AXIS) + plot(axis(place.low, place.high)) + small(8, AXIS - 8, 'moment')
    + element('line', {class: 'lane', x1: labels_width(), x2: labels_width(), y1: 0, y2: visible});
  draw_window();
}

// ---- the strip that shows the whole run

const STRIP = 40;
let strip_width = 0;
const overview_x = (moment) => (moment - from) * strip_width / Math.max(1, to - from);

// Draws what does not move: how many rows have not completed, and the findings.
function draw_overview() {
  strip_width = overview.clientWidth;
  const most = alive_counts.reduce((highest, it) => Math.max(highest, it), 1), points = [[0, STRIP]];
  const apart = Math.max(1, Math.floor((to - from) / Math.max(1, strip_width)));
  for (let m = from; m <= to; m += apart) {
    let highest = 0;
    for (let k = m; k < m + apart && k <= to; k += 1) highest = Math.max(highest, alive_counts[k - from]);
    const top = STRIP - (STRIP - 18) * highest / most;
    points.push([overview_x(m), top], [overview_x(Math.min(to, m + apart)), top]);
  }
  points.push([strip_width, STRIP]);
  const text = points.map(([x, y]) => `${round(x)},${round(y)}`).join(' ');
  const groups = finding_groups(overview_x, from, to).map(({x, all}) => finding_mark({x: within(6, x, strip_width - 6), all}, 2));
  overview.innerHTML = element('polygon', {class: 'graph', points: text}, titled('rows that have not completed'))
    + element('rect', {class: 'window', id: 'part', y: 1, height: STRIP - 2})
    + element('line', {class: 'here', id: 'here', y1: 0, y2: STRIP}) + groups.join('');
}

// Moves the marks of the part in view and of the moment.
function draw_window() {
  const x = overview_x(Math.max(from, view.left)), end = overview_x(Math.min(to, last_moment())), at = round(overview_x(view.moment));
  by_id('part').setAttribute('x', round(x));
  by_id('part').setAttribute('width', round(Math.max(4, end - x)));
  by_id('here').setAttribute('x1', at);
  by_id('here').setAttribute('x2', at);
}
"##;
