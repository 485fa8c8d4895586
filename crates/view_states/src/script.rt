//! The script of a page that is stepped through. It stands in the page as any text does, so it has no `<`, `>`, `&` or quotation mark: its
//! texts stand in grave accents, and its functions are written out.

/// What the browser may run and load: the script of this sum alone.
pub const POLICY: &[u8] =
    b"default-src 'none'; style-src 'unsafe-inline'; script-src 'sha256-dc2CXKQxkQDk5ZiTt19hemvcbg6Z+NhyrQorfaBrxH8='";

/// The script. No character of it is escaped.
pub fn script_text() -> &'static [u8] {
    br"(function () {
  `use strict`;
  const SECTIONS = [`tree`, `map`, `outstanding`, `handles`];
  // Of so many rows one keeps its text; a text is kept in pieces of so many signs; a box has parts of so many lines; a group so many
  // rows; a table of more rows has groups; and so many milliseconds rows are hidden before the browser draws.
  const EVERY = 64, PIECE = 2048, MOST = 64, GROUP = 32, TABLE = 512, SLICE = 8;

  // Whether a value is no more than another, without a sign that the page would escape.
  function is_most(value, most) { return Math.max(value, most) === most; }

  // An element with these attributes and parts.
  function made(name, attributes, parts) {
    const it = Object.assign(document.createElement(name), attributes);
    it.append.apply(it, parts || []);
    return it;
  }

  // What the page has: its rows, and what is told of the state behind each.
  const grid = document.querySelector(`.grid`);
  const run = document.querySelector(`.run`);
  const rows = Array.from(grid.querySelectorAll(`li`));
  const codes = rows.map(function (row) { return row.querySelector(`code`); });
  const lines = codes.map(function (code) { return code.textContent; });
  const lower = lines.map(function (line) { return line.toLowerCase(); });
  const written = document.getElementById(`states`).textContent;
  let place = 0;

  function number() {
    const end = written.indexOf(` `, place);
    const value = Number(written.slice(place, end));
    place = end + 1;
    return value;
  }

  // The edits that make the text told before into that of a row; null where nothing is told of it.
  function entry() {
    if (written[place] === `-`) {
      place += 2;
      return null;
    }
    const edits = [];
    while (written[place] !== `\n`) {
      const stay = number();
      const go = number();
      const size = number();
      edits.push([stay, go, written.slice(place, place + size)]);
      place += size;
    }
    place += 1;
    return edits;
  }

  const entries = rows.map(entry);

  // A text is kept in pieces, which it shares with the one before. These are the pieces of the next one.
  function edited(old, edits) {
    const now = [];
    let piece = 0;
    let at = 0;

    function add(text) {
      for (let from = 0; from !== text.length; from = Math.min(from + PIECE, text.length)) {
        const some = text.slice(from, from + PIECE);
        const last = now.length - 1;
        if (now.length ? is_most(now[last].length + some.length, PIECE) : false) now[last] += some;
        else now.push(some);
      }
    }

    function take(count, stays) {
      for (let left = count; left !== 0;) {
        if (piece === old.length) return;
        const some = Math.min(left, old[piece].length - at);
        if (stays) add(old[piece].slice(at, at + some));
        left -= some;
        at += some;
        if (at === old[piece].length) {
          piece += 1;
          at = 0;
        }
      }
    }

    for (const [stay, go, come] of edits) {
      take(stay, true);
      take(go, false);
      add(come);
    }
    take(Infinity, true);
    return now;
  }

  // The text that is known behind a row, with the row that told it.
  function next(known, row) {
    return entries[row] ? { row: row, pieces: edited(known.pieces, entries[row]) } : known;
  }

  // Every so many rows it is kept, so that each row is a few edits away.
  const kept = [];
  rows.reduce(function (known, row, at) {
    if (at % EVERY === 0) kept.push(known);
    return next(known, at);
  }, { row: -1, pieces: [] });

  // The row that is shown, and the text that is known behind it.
  let shown = { at: -1, known: kept[0] };

  function before(row) {
    if (row - 1 === shown.at) return shown.known;
    const first = row - row % EVERY;
    let known = kept[first / EVERY];
    for (const at of Array(row - first).keys()) known = next(known, first + at);
    return known;
  }

  // The lines of each section, which its name stands before. Those of the last two texts are kept.
  let read = [];

  function sections(known) {
    const same = read.find(function (it) { return it.known === known; });
    if (same) return same.parts;
    const all = [`\n`].concat(known.pieces).join(``);
    const parts = {};
    SECTIONS.reduceRight(function (end, name) {
      const at = all.indexOf(`\n` + name + `\n`);
      parts[name] = at === -1 ? `` : all.slice(at + name.length + 2, end);
      return at === -1 ? end : at + 1;
    }, all.length);
    read = [{ known: known, parts: parts }].concat(read.slice(0, 1));
    return parts;
  }

  // The events that fold: which rows each has, whether it is open, and whether it was; and which rows are hidden.
  const folds = Array.from(grid.querySelectorAll(`details`));
  const fold_rows = folds.map(function () { return []; });
  const number_of = new Map(folds.map(function (fold, at) { return [fold, at]; }));
  const fold_of = rows.map(function (row) { return number_of.get(row.parentNode.parentNode); });
  const own_fold = rows.map(function (row) { return number_of.get(row.firstElementChild); });
  fold_of.forEach(function (fold, row) { if (fold !== undefined) fold_rows[fold].push(row); });
  const open = folds.map(function (fold) { return fold.open; });
  const opened = open.slice();
  const hidden = rows.map(function () { return false; });

  // Items that stand beside one another are put into elements of no more lines than GROUP, where that can be.
  function put(items, lines_of) {
    let room = 0;
    let node = null;
    for (const item of Array.from(items)) {
      if (room === 0) {
        node = made(`div`, { className: `group` });
        item.before(node);
        room = GROUP;
      }
      room = Math.max(room - lines_of(item), 0);
      node.append(item);
    }
  }

  // How many lines an item of a list has, where it is open.
  function depth(item) {
    const fold = number_of.get(item.firstElementChild);
    return fold === undefined ? 1 : fold_rows[fold].length + 1;
  }

  // Rows, devices and ranges stand in groups, and groups of rows in groups again, so that many are hidden at once. The browser lays out
  // those in view; the others are as high as they would be.
  for (const list of grid.querySelectorAll(`ol`)) {
    if (list.parentNode === grid ? false : is_most(list.children.length, GROUP)) continue;
    put(list.children, depth);
    put(list.children, function () { return 1; });
  }
  for (const list of document.querySelectorAll(`.device-tree`)) put(list.children, function () { return 1; });
  for (const table of document.querySelectorAll(`.map-table`)) {
    if (is_most(table.rows.length, TABLE)) continue;
    table.classList.add(`long`);
    put(table.rows, function () { return 1; });
  }
  const groups = [];
  const group_by = new Map();
  for (const node of grid.querySelectorAll(`.group`)) {
    const group = { node: node, outer: group_by.get(node.parentNode.closest(`.group`)), rows: [], lines: -1, count: 0, is_seen: false, is_stale: false };
    group_by.set(node, group);
    groups.push(group);
  }
  const group_of = rows.map(function (row) { return group_by.get(row.closest(`.group`)); });
  group_of.forEach(function (group, row) { group.rows.push(row); });

  // How high each group is: the rows that it shows.
  function measure() {
    for (const group of groups) group.count = 0;
    group_of.forEach(function (group, row) {
      if (hidden[row]) return;
      if (fold_of[row] === undefined ? false : !opened[fold_of[row]]) return;
      for (let it = group; it; it = it.outer) it.count += 1;
    });
    for (const group of groups) {
      if (group.count === group.lines) continue;
      group.lines = group.count;
      group.node.hidden = group.lines === 0;
      group.node.style.containIntrinsicHeight = group.lines * 1.5 + `rem`;
    }
  }

  // The rows of a group are hidden, and its folds open, as they are to be.
  function settle(group) {
    for (const row of group.rows) {
      if (rows[row].hidden !== hidden[row]) rows[row].hidden = hidden[row];
      const fold = own_fold[row];
      if (fold === undefined ? false : folds[fold].open !== opened[fold]) folds[fold].open = opened[fold];
    }
    group.is_stale = false;
  }

  // This is done of those in view first, and of the others some between one drawing of the browser and the next.
  let waiting = [];

  function settle_some() {
    const end = performance.now() + SLICE;
    while (waiting.length ? is_most(performance.now(), end) : false) {
      const group = waiting.pop();
      if (group.is_stale) settle(group);
    }
    stepper.ariaBusy = waiting.length !== 0;
    if (waiting.length) requestAnimationFrame(function () { setTimeout(settle_some, 0); });
  }

  // What stands below the page: the row, what is sought, and the state.
  function field(label, values) {
    const list = made(`datalist`, { id: `stepper-` + label }, values.map(function (value) { return made(`option`, { value: value }); }));
    const input = made(`input`, { type: `search`, autocomplete: `off` });
    input.setAttribute(`list`, list.id);
    input.addEventListener(`input`, filter);
    return made(`label`, { textContent: label + ` ` }, [input, list]);
  }

  function value(label) { return label.querySelector(`input`).value.toLowerCase(); }

  // The third words of the lines that begin so.
  function names(begins) {
    const found = lines.map(function (line) { return line.split(` `); }).filter(function (words) { return begins(words[0]); });
    return Array.from(new Set(found.map(function (words) { return words[2]; }))).sort();
  }

  function asks(word) { return word === `add` || word === `SURPRISE_REMOVAL` || word.endsWith(`_DEVICE`); }

  const search = field(`search`, []);
  const device = field(`device`, names(function (word) { return word === `join`; }));
  const driver = field(`driver`, names(asks));
  const count = made(`output`, {});
  const slider = made(`input`, { type: `range`, min: 1, max: rows.length, value: 1, title: `Row` });
  const back = made(`button`, { type: `button`, textContent: `\u25c0`, title: `The row before: left arrow; the event before: with shift` });
  const on = made(`button`, { type: `button`, textContent: `\u25b6`, title: `The next row: right arrow; the next event: with shift` });
  const title = made(`summary`, {});
  const boxes = SECTIONS.map(function () { return { pre: made(`pre`, { tabIndex: 0 }), text: ``, lines: [], parts: [], marked: [] }; });
  const stepper = made(`section`, { className: `stepper` }, [
    made(`div`, { className: `stepper-row` }, [back, slider, on, search, device, driver, count]),
    made(`details`, { open: true }, [title, made(`div`, { className: `stepper-boxes` }, SECTIONS.map(function (name, at) {
      return made(`div`, {}, [made(`h2`, { textContent: name }), boxes[at].pre]);
    }))]),
  ]);
  document.body.append(stepper);

  // How many lines two sections have alike at the front, and then at the back.
  function alike(old, now) {
    const most = Math.min(old.length, now.length);
    let front = 0;
    let back = 0;
    while (front === most ? false : old[front] === now[front]) front += 1;
    while (front + back === most ? false : old[old.length - 1 - back] === now[now.length - 1 - back]) back += 1;
    return [front, back];
  }

  // A box has its lines in parts of MOST. A part stays where it is, also where it has no lines any more, and what it has is written anew
  // where it differs.
  function fill(box, now) {
    while (is_most(box.parts.length * MOST + 1, now.length)) {
      const node = made(`div`, {});
      box.parts.push({ node: node, text: ``, size: 0 });
      box.pre.append(node);
    }
    box.parts.forEach(function (part, at) {
      const some = now.slice(at * MOST, at * MOST + MOST);
      const text = some.join(`\n`) + (some.length ? `\n` : ``);
      if (text !== part.text) part.node.textContent = text;
      if (some.length !== part.size) part.node.style.containIntrinsicHeight = some.length * 1.25 + `rem`;
      part.text = text;
      part.size = some.length;
    });
    box.lines = now;
  }

  // Those lines are marked that were not there before the row.
  function mark(box, was) {
    const [front, back] = alike(was, box.lines);
    const had = new Set(was.slice(front, was.length - back));
    const is_new = box.lines.map(function (line, at) {
      return is_most(front, at) ? is_most(at + 1, box.lines.length - back) ? !had.has(line) : false : false;
    });
    box.parts.forEach(function (part, number) {
      const first = number * MOST;
      if (!is_new.slice(first, first + part.size).some(Boolean)) return;
      const pieces = [``];
      box.lines.slice(first, first + part.size).forEach(function (line, at) {
        if (is_new[first + at]) pieces.push(made(`mark`, { textContent: line }), `\n`);
        else pieces.push(pieces.pop() + line + `\n`);
      });
      part.node.replaceChildren.apply(part.node, pieces);
      box.marked.push(part);
    });
  }

  // What a box shows behind a row, before which it was so.
  function draw(box, now, was) {
    for (const part of box.marked.splice(0)) part.node.textContent = part.text;
    if (now !== box.text) fill(box, now.split(`\n`).slice(0, -1));
    box.text = now;
    if (now !== was) mark(box, was.split(`\n`).slice(0, -1));
  }

  // In each box the first line that is marked comes into view.
  function look() {
    const marks = boxes.map(function (box) { return box.pre.querySelector(`mark`); });
    const tops = marks.map(function (first, at) { return first ? first.offsetTop - boxes[at].pre.offsetTop - 32 : null; });
    tops.forEach(function (top, at) { if (top !== null) boxes[at].pre.scrollTop = top; });
  }

  let here = 0;

  function show(row) {
    const old = before(row);
    const known = next(old, row);
    const now = sections(known);
    const was = sections(old);
    rows[here].classList.remove(`here`);
    rows[row].classList.add(`here`);
    here = row;
    shown = { at: row, known: known };
    slider.value = row + 1;
    const told = known.row === row ? `` : known.row === -1 ? ` (nothing is told of its state)` : ` (the state behind row ` + (known.row + 1) + `)`;
    title.textContent = `Behind row ` + (row + 1) + `: ` + lines[row] + told;
    SECTIONS.forEach(function (name, at) {
      draw(boxes[at], now[name], known.row === row ? was[name] : now[name]);
      boxes[at].pre.parentNode.hidden = name === `handles` ? now[name] === `` : false;
    });
  }

  function go(row) {
    show(row);
    const fold = fold_of[row];
    if (fold === undefined ? false : !opened[fold]) {
      opened[fold] = true;
      folds[fold].open = true;
      measure();
    }
    for (let group = group_of[row]; group; group = group.outer) if (group.is_stale) settle(group);
    look();
    bring(codes[row]);
    // What came into view may be higher than it was taken for.
    requestAnimationFrame(function () {
      setTimeout(function () { if (here === row) bring(codes[row]); }, 0);
    });
  }

  // A line that is not between the heads and what stands below comes to the middle.
  function bring(code) {
    const middle = (innerHeight - stepper.offsetHeight) / 2;
    const away = code.getBoundingClientRect().top - middle;
    if (run.scrollHeight !== run.clientHeight) code.scrollIntoView({ block: `nearest` });
    else if (!is_most(Math.abs(away), Math.max(middle - 56, 0))) scrollBy(0, away);
  }

  // The next row that is not hidden, this way; or the next event.
  function step(way, by_event) {
    function passes(row) { return hidden[row] || (by_event ? fold_of[row] !== undefined : false); }
    let row = here + way;
    while (rows[row] ? passes(row) : false) row += way;
    if (rows[row]) go(row);
  }

  // Rows that are not sought are hidden, and what is drawn behind them; of an event that has one the first row stays.
  function filter() {
    const text = value(search);
    const words = [device, driver].map(value).filter(Boolean);
    const sought = text !== `` || words.length !== 0;
    function has(line, word) { return line.includes(word) ? line.split(` `).includes(word) : false; }
    let hits = 0;
    lower.forEach(function (line, row) {
      const is_hit = line.includes(text) ? words.every(function (word) { return has(line, word); }) : false;
      hidden[row] = !is_hit;
      if (is_hit) hits += 1;
    });
    own_fold.forEach(function (fold, row) {
      if (fold === undefined) return;
      const some = fold_rows[fold].some(function (inner) { return !hidden[inner]; });
      if (some) hidden[row] = false;
      opened[fold] = sought ? some : open[fold];
    });
    for (const drawing of document.querySelectorAll(`.drawing`)) drawing.hidden = sought;
    count.textContent = sought ? hits + ` of ` + rows.length + ` rows` : ``;
    measure();
    for (const group of groups) group.is_stale = true;
    waiting = groups.slice().sort(function (one, other) { return one.is_seen - other.is_seen; });
    settle_some();
  }

  function at_address() {
    const row = rows.indexOf(document.getElementById(location.hash.slice(1)));
    if (row !== -1) go(row);
  }

  slider.addEventListener(`input`, function () { go(slider.value - 1); });
  back.addEventListener(`click`, function () { step(-1, false); });
  on.addEventListener(`click`, function () { step(1, false); });
  document.addEventListener(`keydown`, function (event) {
    if (event.ctrlKey || event.altKey || event.metaKey || [`INPUT`, `PRE`].includes(event.target.tagName)) return;
    if (event.key === `ArrowLeft`) step(-1, event.shiftKey);
    if (event.key === `ArrowRight`) step(1, event.shiftKey);
  });
  grid.addEventListener(`toggle`, function (event) {
    const fold = number_of.get(event.target);
    if (opened[fold] === event.target.open) return;
    opened[fold] = event.target.open;
    measure();
  }, true);
  grid.addEventListener(`contentvisibilityautostatechange`, function (event) {
    const group = group_by.get(event.target);
    if (!group) return;
    group.is_seen = !event.skipped;
    if (group.is_seen ? group.is_stale : false) settle(group);
  }, true);
  grid.addEventListener(`click`, function (event) {
    const row = codes.indexOf(event.target.closest(`code`));
    if (row !== -1) go(row);
  });
  window.addEventListener(`hashchange`, at_address);
  measure();
  if (rows.length) {
    show(0);
    look();
  }
  at_address();
})();
"
}
