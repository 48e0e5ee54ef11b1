//! Changes of the drawing, and what follows from them.

/// What the page knows, changes that can be undone, and what tools do.
macro_rules! changes {
    ([$($before:literal)*] $next:ident $($later:ident)*) => {
        $next!([$($before)* r##"// ---- what the page knows

const by = id => document.getElementById(id);
const SVG = "http://www.w3.org/2000/svg";
const U = 24; // units from one place of the grid to the next
const NOTHING = {x: -U, y: -U, w: 34 * U, h: 11 * U};

let drawing = newDrawing(), read = null, table = null;
let tool = "rail", view = {...NOTHING};
// what is chosen; the place from which a chain of rail goes on; what the pressed mouse does; where the mouse is; what a list points at
let chosen = null, chain = null, stroke = null, hover = null, cursor = "0,0", lit = null, isOther = false, side = 1;
let told = []; // what is to be told of the file that was opened
const past = [], future = [];
// the drawing before a stroke, all of which is undone at once
let before = null;

function svg(parent, tag, attributes, text) {
  const made = document.createElementNS(SVG, tag);
  for (const [name, value] of Object.entries(attributes)) made.setAttribute(name, value);
  if (text !== undefined) made.textContent = text;
  parent.append(made);
  return made;
}

function html(tag, attributes, ...inside) {
  const made = Object.assign(document.createElement(tag), attributes);
  made.append(...inside);
  return made;
}

// ---- changes, each of which can be undone

function change(does) {
  const was = JSON.stringify(drawing);
  does(drawing);
  refresh();
  if (before === null) remember(was);
  paint();
}

function remember(was) {
  if (JSON.stringify(drawing) === was) return;
  past.push(was);
  future.length = 0;
  saying = "";
  keep();
}

function undo(from, to) {
  if (!from.length || before !== null) return;
  to.push(JSON.stringify(drawing));
  drawing = JSON.parse(from.pop());
  chain = stroke = chosen = null;
  saying = "";
  refresh();
  keep();
  paint();
}

function beginStroke(one) {
  stroke = one;
  before = JSON.stringify(drawing);
}

function endStroke() {
  const was = before;
  stroke = before = null;
  if (was !== null) remember(was);
}

// A page of a file may have no store.
function keep() {
  if (station) return;
  try { localStorage.setItem("drawing", JSON.stringify(drawing)); } catch { /* then it isn't kept */ }
}

// ---- what follows from the drawing

function refresh() {
  lit = null;
  read = new Reading(drawing);
  table = read.isUnnamed ? {site: siteOf(read.l), routes: [], impossible: [], stuck: [], isCut: false} : derive(read.l, drawing.rule);
  table.routes.forEach(chooseFor);
  table.kept = table.routes.filter(one => !one.isOut);
  for (const one of table.kept) one.extra = conflictsOf(one);
  judgeRoutes();
  read.notes = notesOf();
  read.text = writeLayout(read.l, table.kept, read.lines);
  askStation();
}

// ---- what one change mends

const FIXES = {
  mark: fix => change(all => { all.marks[fix.key] = {divides: true}; }),
  unmark: fix => change(all => { delete all.marks[fix.key]; }),
  unborder: fix => change(all => { delete all.borders[fix.key]; }),
  unsignal: fix => change(all => { all.signals = all.signals.filter(one => one.name !== fix.name); }),
  signal: fix => putSignal(fix.key, fix.toward),
  part: fix => change(all => { all.scattered = all.scattered.filter(name => name !== fix.name); }),
  spread: fix => change(all => spread(all, fix.name)),
  name: fix => change(all => renameOne(all, fix)),
  id: fix => change(all => giveId(all, fix)),
  routeName: fix => change(all => { delete all.asides[fix.key]?.name; }),
  routeApproach: fix => change(all => { delete all.asides[fix.key]?.approach; }),
  rule: () => change(all => { all.rule = "signal"; }),
};

function spread(all, name) {
  const one = all.detectors.find(one => one.name === name), listed = read.l.detector.find(one => one.name === name).sections;
  one.sections = listed.slice(0, LONGEST_DETECTOR);
}

// The later of two things that have a name is renamed.
function renameOne(all, {kind, name, to}) {
  if (kind === "station") all.station.name = to;
  if (kind === "signal") all.signals.findLast(one => one.name === name).name = to;
  if (kind === "detector") all.detectors.findLast(one => one.name === name).name = to;
  if (kind === "border") all.borders[Object.keys(all.borders).findLast(key => all.borders[key] === name)] = to;
  if (kind === "point") renamePoint(all, Object.keys(all.points).findLast(key => all.points[key].name === name), to);
  if (kind === "track") nameTrack(all, read.where.track.get(name), to);
  if (kind === "section") renameSection(all, read.where.section.get(name).runs, name, to);
}

function giveId(all, {kind, name}) {
  const list = {station: [all.station], signal: all.signals, detector: all.detectors, point: Object.values(all.points).filter(one => !one.gone)}[kind];
  const one = list.findLast(one => one.name === name);
  one.id = freeId({station: 1, point: 201, signal: 101, detector: 301}[kind], idsOf(all));
}

function nameTrack(all, run, name) {
  renameInOrder(all, run.name, name);
  if (read.isReversed(run)) all.reversed = [...all.reversed.filter(it => it !== run.name), name];
  for (const rail of run.rails) all.rails[rail].track = {name, own: true};
}

// ---- names

function rename(what, name) {
  change(all => {
    if (what.kind === "signal") {
      renameInRoutes(all, what.name, name);
      all.signals.find(one => one.name === what.name).name = name;
      what.name = name;
    }
    if (what.kind === "border") {
      renameInRoutes(all, all.borders[what.key], name);
      all.borders[what.key] = name;
    }
    if (what.kind === "point") {
      renameInRoutes(all, all.points[what.key].name, name);
      renamePoint(all, what.key, name);
    }
    if (what.kind === "section") nameSection(all, what, name);
    if (what.kind === "route") all.asides[what.key] = {...all.asides[what.key], name};
  });
}

// A section that is called as another one becomes a part of it. The track of a section of one track is named along, as long as
// nobody named it.
function nameSection(all, what, name) {
  const {runs} = read.where.section.get(what.name), [run] = runs;
  if (read.where.section.has(name)) all.scattered.push(name);
  renameSection(all, runs, what.name, name);
  if (runs.length === 1 && run.isTrack && !run.own && /^G./.test(name)) {
    const track = /^G[0-9]/.test(name) ? "T" + name.slice(1) : name.slice(1);
    if (!ownNames(all).has(track)) nameTrack(all, run, track);
  }
  what.name = name;
}

const nameOf = what => what.name || drawing.borders[what.key] || drawing.points[what.key]?.name || table.routes.find(one => one.key === what.key)?.name || "";

// ---- what tools do

function putSignal(key, toward) {
  const old = drawing.signals.find(one => one.at === key && one.toward === toward);
  if (old) { chosen = {kind: "signal", name: old.name, key}; return paint(); }
  let name;
  change(all => {
    if (read.kinds.get(key).kind === "rail") all.marks[key] = {divides: true};
    name = freeName("S", new Set([...namesOf(read.l), ...all.signals.map(one => one.name)]));
    all.signals.push({name, id: freeId(101, idsOf(all)), at: key, toward});
    chosen = {kind: "signal", name, key};
  });
  askName(chosen, name);
}

function putBorder(key) {
  const of = read.kinds.get(key);
  if (of?.kind === "border") { chosen = {kind: "border", key}; return askName(chosen, drawing.borders[key]); }
  if (of?.kind !== "end") return say("a border stands at an end of a rail");
  const [dx] = STEPS[of.ways[0]], head = dx > 0 ? "West" : dx < 0 ? "East" : "Border", taken = new Set(namesOf(read.l));
  const name = taken.has(head) ? freeName(head, taken) : head;
  change(all => { all.borders[key] = name; chosen = {kind: "border", key}; });
  askName(chosen, name);
}

// A joint divides sections; then elements alone; then it is gone, unless a signal stands there.
function turnJoint(key) {
  const kind = read.kinds.get(key)?.kind, hasSignal = drawing.signals.some(one => one.at === key);
  if (kind === "rail") return change(all => { all.marks[key] = {divides: true}; chosen = {kind: "mark", key}; });
  if (kind !== "mark") return say("a joint stands on a rail, between points");
  change(all => {
    if (all.marks[key].divides) all.marks[key].divides = false;
    else if (hasSignal) all.marks[key].divides = true;
    else delete all.marks[key];
  });
}

function takeAway(all, thing) {
  if (thing.kind === "signal") all.signals = all.signals.filter(one => one.name !== thing.name);
  if (thing.kind === "mark") { delete all.marks[thing.key]; all.signals = all.signals.filter(one => one.at !== thing.key); }
  if (thing.kind === "border") { delete all.borders[thing.key]; all.signals = all.signals.filter(one => one.at !== thing.key); }
  if (thing.kind === "route") all.without = all.without.includes(thing.key) ? all.without : [...all.without, thing.key];
}

function erase(thing) {
  if (!thing) return;
  change(all => {
    takeAway(all, thing);
    if (thing.kind === "section") takeRail(all, thing.rail);
  });
}

function removeChosen() {
  const what = chosen;
  if (!what) return;
  chosen = null;
  const runs = what.kind === "section" ? read.where.section.get(what.name)?.runs || [] : [];
  change(all => {
    takeAway(all, what);
    for (const run of runs) for (const rail of run.rails) takeRail(all, rail);
    if (what.kind === "point") takeRail(all, railKey(what.key, minorLeg(read.kinds.get(what.key))));
  });
}

// The way of the leg of a point that isn't in line with its tip.
const minorLeg = of => of.left === turned(of.tip) ? of.right : of.left;

function lay(from, to) {
  const places = bestPath(drawing, from, to, isOther);
  change(all => addPlaces(all, places));
}

// Room is made only where no joint changes by it.
function makeRoom() {
  const joints = l => JSON.stringify(l.joint.map(pair => [...pair].sort().join()).sort()), tried = structuredClone(drawing), [column] = spot(cursor);
  widen(tried, column);
  const then = new Reading(tried);
  if (then.faults.length > read.faults.length || joints(then.l) !== joints(read.l)) return say("no room can be made here: rails would meet");
  change(all => widen(all, column));
}

function flip(one) {
  const of = read.kinds.get(one.at), ways = [...of.ways, ...of.ways.map(turned)];
  const toward = ways.find(way => way !== one.toward && read.portBefore({at: one.at, toward: way}) && !drawing.signals.some(it => it.at === one.at && it.toward === way));
  if (toward === undefined) return say("no signal can stand on the other side here");
  change(() => { one.toward = toward; });
}

"##] $($later)*)
    };
}

pub(crate) use changes;
