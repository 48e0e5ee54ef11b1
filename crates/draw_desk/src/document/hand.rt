//! The mouse and the keyboard.

/// What presses and keys do.
macro_rules! hand {
    ([$($before:literal)*] $next:ident $($later:ident)*) => {
        $next!([$($before)* r##"// ---- where things are

// How many pixels a unit takes, and where the plan begins.
function scaleNow() {
  const box = by("d-svg").getBoundingClientRect(), scale = Math.min(box.width / view.w, box.height / view.h);
  return {box, scale, left: (box.width - view.w * scale) / 2, top: (box.height - view.h * scale) / 2};
}

function spotOf(event) {
  const {box, scale, left, top} = scaleNow();
  return [(view.x + (event.clientX - box.x - left) / scale) / U, (view.y + (event.clientY - box.y - top) / scale) / U];
}

// Where the mouse is or, by the keyboard, a little aside of the pointer.
function hand() {
  if (hover) return hover;
  const [x, y] = spot(cursor);
  return [x, y + side * .3];
}

// The place of a rail that lies next, and the way of the trains that have the hand at their right.
function signalSpot() {
  const [x, y] = hand();
  let best = null, least = .9;
  for (const [key, of] of read.kinds) {
    const [a, b] = spot(key), far = Math.hypot(x - a, y - b);
    if (["rail", "mark", "border", "end"].includes(of.kind) && far < least) { best = key; least = far; }
  }
  if (!best) return null;
  const of = read.kinds.get(best), [a, b] = spot(best), ways = of.kind === "end" ? [turned(of.ways[0])] : of.kind === "border" ? [of.ways[0], turned(of.ways[0])] : of.ways;
  const aside = way => { const [dx, dy] = normalOf(way); return (x - a) * -dy + (y - b) * dx; };
  return {key: best, toward: [...ways].sort((one, other) => aside(other) - aside(one))[0]};
}

function thingAt([x, y]) {
  for (const one of drawing.signals) {
    const [a, b] = spot(one.at), back = read.kinds.get(one.at)?.ways.find(way => way !== one.toward), [dx, dy] = normalOf(back === undefined ? one.toward : turned(back));
    if (Math.hypot(x - a + dx * .48 + dy * .48, y - b + dy * .48 - dx * .48) < .45) return {kind: "signal", name: one.name, key: one.at};
  }
  const key = place(Math.round(x), Math.round(y)), [a, b] = spot(key);
  return (Math.hypot(x - a, y - b) < .42 && standingAt(key)) || sectionAt(railNear(x, y));
}

function standingAt(key) {
  const kind = read.kinds.get(key)?.kind;
  return {point: {kind: "point", key}, border: {kind: "border", key}, lonely: {kind: "border", key}}[kind] || (key in drawing.marks ? {kind: "mark", key} : null);
}

function sectionAt(rail) {
  const group = rail && read.groups.find(group => group.runs.includes(read.runOf.get(rail)));
  return group ? {kind: "section", name: group.name, rail, key: railEnds(rail)[0]} : null;
}

function railNear(x, y) {
  let best = null, least = .34;
  for (const rail of Object.keys(drawing.rails)) {
    const [[a, b], [c, e]] = railEnds(rail).map(spot);
    const along = Math.max(0, Math.min(1, ((x - a) * (c - a) + (y - b) * (e - b)) / ((c - a) ** 2 + (e - b) ** 2)));
    const far = Math.hypot(x - a - along * (c - a), y - b - along * (e - b));
    if (far < least) { best = rail; least = far; }
  }
  return best;
}

// All that is at a place, for the keyboard.
function thingsAt(key) {
  const signals = drawing.signals.filter(one => one.at === key).map(one => ({kind: "signal", name: one.name, key}));
  const [way] = waysAt(drawing, key), section = way === undefined ? null : sectionAt(railKey(key, way));
  return [standingAt(key), ...signals, section].filter(Boolean);
}

// The thing at the pointer; where one of them is chosen already, the next one on demand.
function thingByKey(isNext) {
  const all = thingsAt(cursor), now = all.findIndex(one => chosen && one.kind === chosen.kind && one.name === chosen.name && one.key === chosen.key);
  return all[isNext ? (now + 1) % all.length : Math.max(0, now)] || null;
}

// ---- a field for a name, at the thing itself

function askName(what, proposed) {
  const input = by("d-name"), key = what.key || drawing.signals.find(one => one.name === what.name)?.at, {box, scale, left, top} = scaleNow(), [x, y] = at(key);
  input.hidden = false;
  input.style.left = Math.max(4, Math.min(box.width - 150, left + (x - view.x) * scale - 50)) + "px";
  input.style.top = Math.max(4, Math.min(box.height - 30, top + (y - view.y) * scale + 26 * scale)) + "px";
  input.value = proposed;
  input.focus();
  input.select();
  input.onblur = () => closeName(what, proposed, true);
  input.onkeydown = key => {
    key.stopPropagation();
    if (key.key === "Enter") closeName(what, proposed, true);
    if (key.key === "Escape") closeName(what, proposed, false);
  };
}

function closeName(what, proposed, isMeant) {
  const input = by("d-name"), name = input.value.trim();
  if (input.hidden) return;
  input.onblur = null;
  input.hidden = true;
  by("d-svg").focus({preventScroll: true});
  if (isMeant && name && name !== proposed) rename(what, name);
}

function askChosen() {
  if (chosen && !["mark", "route"].includes(chosen.kind)) askName(chosen, nameOf(chosen));
  else if (chosen?.kind === "route") by("d-fields").querySelector("input").focus();
}

// ---- the mouse

function click(key) {
  saying = "";
  if (tool === "rail") {
    if (chain === key) chain = null;
    else { if (chain) lay(chain, key); chain = key; }
  }
  if (tool === "joint") turnJoint(key);
  if (tool === "border") putBorder(key);
  if (tool === "signal") { const one = signalSpot(); if (one) putSignal(one.key, one.toward); else say("a signal stands beside a rail, not at a point"); }
  if (tool === "erase") erase(hover ? thingAt(hover) : thingByKey(false));
  if (tool === "choose") chooseAt();
  paint();
}

// By the keyboard a second Enter asks for the name of what is chosen.
function chooseAt() {
  const one = hover ? thingAt(hover) : thingByKey(false), isAgain = !hover && one && chosen && one.kind === chosen.kind && one.key === chosen.key && one.name === chosen.name;
  chosen = one;
  if (isAgain) askChosen();
}

let pan = null, isSpace = false;

function onDown(event) {
  by("d-svg").focus({preventScroll: true});
  hover = spotOf(event);
  cursor = place(Math.round(hover[0]), Math.round(hover[1]));
  isOther = event.shiftKey;
  if (event.button === 1 || isSpace) { pan = {x: event.clientX, y: event.clientY, view: {...view}}; return; }
  if (event.button !== 0) return;
  by("d-svg").setPointerCapture(event.pointerId);
  if (tool === "rail") { stroke = {from: cursor}; return paint(); }
  if (tool === "erase") { beginStroke({}); return erase(thingAt(hover)); }
  if (tool === "choose") return pressThing(thingAt(hover));
  click(cursor);
}

function pressThing(thing) {
  chosen = thing;
  saying = "";
  if (thing?.kind === "signal") beginStroke({signal: thing.name});
  paint();
}

function onMove(event) {
  if (pan) return panTo(event);
  hover = spotOf(event);
  const key = place(Math.round(hover[0]), Math.round(hover[1]));
  isOther = event.shiftKey;
  if (tool === "erase" && stroke) { cursor = key; return erase(thingAt(hover)); }
  if (stroke?.signal) return dragSignal(drawing.signals.find(one => one.name === stroke.signal), signalSpot());
  if (key === cursor && tool !== "signal") return;
  cursor = key;
  repaintLit();
}

function panTo(event) {
  const {scale} = scaleNow();
  view = {...pan.view, x: pan.view.x - (event.clientX - pan.x) / scale, y: pan.view.y - (event.clientY - pan.y) / scale};
  paint();
}

function dragSignal(one, to) {
  if (!one || !to || (to.key === one.at && to.toward === one.toward)) return;
  if (drawing.signals.some(it => it !== one && it.at === to.key && it.toward === to.toward)) return;
  change(all => {
    if (read.kinds.get(to.key).kind === "rail") all.marks[to.key] = {divides: true};
    Object.assign(one, {at: to.key, toward: to.toward});
    chosen = {...chosen, key: to.key};
  });
}

function onUp() {
  if (pan) { pan = null; return; }
  const from = stroke?.from;
  endStroke();
  if (tool === "rail" && from) {
    if (from === cursor) return click(cursor);
    // a drag is one stroke by itself; with a chain it is its next piece
    lay(chain || from, cursor);
    chain = chain ? cursor : null;
  }
  paint();
}

function onDouble(event) {
  const thing = thingAt(spotOf(event));
  if (tool === "rail") { chain = null; return paint(); }
  if (tool !== "choose" || !thing || thing.kind === "mark") return;
  chosen = thing;
  paint();
  askName(thing, nameOf(thing));
}

function zoom(by, [x, y]) {
  const [a, b] = [x * U, y * U];
  view = {x: a - (a - view.x) * by, y: b - (b - view.y) * by, w: view.w * by, h: view.h * by};
  paint();
}

function onWheel(event) {
  event.preventDefault();
  if (event.shiftKey || event.deltaX) return slide(event.deltaX || event.deltaY);
  zoom(Math.exp(event.deltaY * .0012), spotOf(event));
}

function slide(pixels) {
  view.x += pixels / scaleNow().scale;
  paint();
}

// All in sight, and a little more.
function fit() {
  const keys = read ? [...read.kinds.keys()].map(spot) : [];
  if (!keys.length) { view = {...NOTHING}; return paint(); }
  const [xs, ys] = [keys.map(one => one[0]), keys.map(one => one[1])], [w, h] = [xs, ys].map(all => Math.max(...all) - Math.min(...all));
  const width = Math.max(w + 3, 28), height = Math.max(h + 3.4, 9);
  view = {x: (Math.min(...xs) + w / 2 - width / 2) * U, y: (Math.min(...ys) + h / 2 - height / 2) * U, w: width * U, h: height * U};
  paint();
}

// All of it or, of a long station, its west end as large as it can be read.
function show() {
  fit();
  const {box, scale} = scaleNow();
  if (scale > .5 || !read.kinds.size) return;
  const west = view.x, middle = view.y + view.h / 2;
  view = {x: west, y: middle - box.height / 1.1, w: box.width / .55, h: box.height / .55};
  say("a part is in sight: Space and a drag move the paper, 0 has all in sight");
  paint();
}

// What the keyboard points at stays in sight.
function follow() {
  const [x, y] = at(cursor);
  if (x < view.x + U) view.x = x - 2 * U;
  if (y < view.y + U) view.y = y - 2 * U;
  if (x > view.x + view.w - U) view.x = x - view.w + 2 * U;
  if (y > view.y + view.h - U) view.y = y - view.h + 2 * U;
}

// ---- the keyboard

function setTool(name) {
  tool = name;
  saying = "";
  chain = stroke = null;
  paint();
}

function onKey(key) {
  if (document.querySelector("dialog[open]")) return;
  if (key.target.matches("input:not([type=checkbox]),textarea,select")) {
    if (key.key === "Enter" || key.key === "Escape") by("d-svg").focus({preventScroll: true});
    return;
  }
  const does = key.ctrlKey || key.metaKey ? withControl(key) : key.altKey ? null : inList(key) || arrow(key) || plain(key);
  if (!does) return;
  key.preventDefault();
  does();
}

const withControl = key => ({z: () => key.shiftKey ? undo(future, past) : undo(past, future), y: () => undo(future, past), s: save})[key.key.toLowerCase()];

// Rows of a list: arrows, Enter for its button or its choice, Space for its box.
function inList(key) {
  const row = document.activeElement?.closest?.("ul.d-list li[tabindex]");
  if (!row) return document.activeElement?.matches?.("button,summary") && [" ", "Enter"].includes(key.key) ? null : undefined;
  const rows = [...row.parentElement.querySelectorAll("li[tabindex]")], to = {ArrowDown: 1, ArrowUp: -1}[key.key];
  if (to) return () => rows[(rows.indexOf(row) + to + rows.length) % rows.length].focus();
  if (key.key === "Enter") return () => row.choose ? row.choose() : row.querySelector("button")?.click();
  return key.key === " " && row.toggle ? row.toggle : null;
}

function arrow(key) {
  const way = {ArrowRight: 0, ArrowDown: 2, ArrowLeft: 4, ArrowUp: 6}[key.key];
  return way === undefined ? null : () => { hover = null; cursor = step(cursor, way); isOther = key.shiftKey; follow(); paint(); };
}

function plain(key) {
  if (key.target.matches("button,input") && [" ", "Enter"].includes(key.key)) return null;
  const name = Object.keys(TOOLS).find(name => TOOLS[name][1] === key.key), middle = [(view.x + view.w / 2) / U, (view.y + view.h / 2) / U];
  return {
    " ": () => { isSpace = true; },
    Enter: () => { hover = null; click(cursor); },
    ".": () => { hover = null; if (tool === "choose") chosen = thingByKey(true); else side = -side; paint(); },
    Escape: () => { if (chain) { chain = null; paint(); } else { chosen = null; setTool("choose"); } },
    Delete: removeChosen, Backspace: removeChosen, F2: askChosen,
    0: fit, "+": () => zoom(.8, middle), "-": () => zoom(1.25, middle), i: makeRoom,
    p: () => by("d-svg").focus(),
    f: () => by("d-faults").querySelector("li[tabindex]")?.focus(),
    "/": () => by("d-routes").querySelector("li[tabindex]")?.focus(),
    "?": () => by("d-keys").showModal(),
  }[key.key] || (name && (() => setTool(name)));
}

"##] $($later)*)
    };
}

pub(crate) use hand;
