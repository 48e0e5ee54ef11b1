//! The plan, as it is painted.

/// Paints rails, what stands at them, what is pointed at, and what a click would do.
macro_rules! plan {
    ([$($before:literal)*] $next:ident $($later:ident)*) => {
        $next!([$($before)* r##"// ---- the plan

const TINTS = ["#dce6f2", "#f6e3c5", "#dcefd9", "#eadcf0", "#f5d9d9", "#d5eef0"];

function paint() {
  const root = by("d-svg");
  root.setAttribute("viewBox", [view.x, view.y, view.w, view.h].join(" "));
  root.replaceChildren();
  // letters stay legible where the plan is small
  letter = Math.min(15, Math.max(9.5, 10.6 / scaleNow().scale));
  root.style.setProperty("--letter", letter + "px");
  paintGrid(root);
  for (const layer of ["bands", "rails", "ways", "marks", "things", "over"]) svg(root, "g", {id: "d-" + layer});
  paintRails();
  paintThings();
  repaintLit();
  paintWord();
  paintLists();
}

const at = key => { const [x, y] = spot(key); return [x * U, y * U]; };
const course = places => "M" + places.map(key => at(key).join(" ")).join("L");
const isChosen = (kind, name) => chosen?.kind === kind && (chosen.name ?? chosen.key) === name;

function paintGrid(root) {
  const pattern = svg(svg(root, "defs", {}), "pattern", {id: "d-dots", width: U, height: U, patternUnits: "userSpaceOnUse", x: -U / 2, y: -U / 2});
  svg(pattern, "circle", {class: "dot", cx: U / 2, cy: U / 2, r: 1});
  svg(root, "rect", {x: view.x - view.w, y: view.y - view.h, width: view.w * 3, height: view.h * 3, fill: "url(#d-dots)"});
}

function paintRails() {
  const tint = new Map(read.l.detector.flatMap((one, number) => one.sections.map(name => [name, TINTS[number % TINTS.length]])));
  for (const group of read.groups) {
    const of = svg(by("d-bands"), "g", {"data-section": group.name});
    for (const run of group.runs) svg(of, "path", {class: "band" + (isChosen("section", group.name) ? " lit" : ""), d: course(run.places), stroke: tint.get(group.name) || TINTS[0]});
  }
  for (const run of read.runs) svg(by("d-rails"), "path", {class: "rail", d: course(run.places)});
  for (const rail of Object.keys(drawing.rails)) if (!read.runOf.has(rail)) svg(by("d-rails"), "path", {class: "rail", d: course(railEnds(rail))});
  for (const one of read.l.point) paintLegs(one, read.where.point.get(one.name));
}

// The legs of a point are thicker near it; those that are passed slowly have another colour.
function paintLegs(one, key) {
  const of = read.kinds.get(key), [x, y] = at(key);
  for (const end of ["left", "right"]) {
    const [dx, dy] = STEPS[of[end]], isSlow = one.slow === end || one.slow === "both";
    svg(by("d-rails"), "path", {class: "leg" + (isSlow ? " slow" : ""), d: `M${x} ${y}L${x + dx * U * .42} ${y + dy * U * .42}`});
  }
}

function normalOf(way) {
  const [dx, dy] = STEPS[way], length = Math.hypot(dx, dy);
  return [dx / length, dy / length];
}

function drawJoint(parent, key, ways, className, half = 8) {
  const [x, y] = at(key), [dx, dy] = normalOf(ways[0]), [ex, ey] = normalOf(turned(ways[1] ?? turned(ways[0])));
  const length = Math.hypot(dx + ex, dy + ey), [nx, ny] = [-(dy + ey) / length * half, (dx + ex) / length * half];
  svg(parent, "line", {class: className, x1: x - nx, y1: y - ny, x2: x + nx, y2: y + ny});
}

// A signal stands on the right of the trains that it rules, before the joint, along the rail by which they come.
function drawSignal(parent, key, toward, back) {
  const [x, y] = at(key), [dx, dy] = normalOf(back === undefined ? toward : turned(back)), [nx, ny] = [-dy, dx];
  const put = (along, aside) => [x + dx * along + nx * aside, y + dy * along + ny * aside];
  const of = svg(parent, "g", {class: "signal"}), line = (one, other) => svg(of, "line", {class: "mast", x1: one[0], y1: one[1], x2: other[0], y2: other[1]});
  line(put(-22, 8), put(-22, 15));
  line(put(-22, 11.5), put(-12, 11.5));
  const [near, distant] = [put(-9, 11.5), put(-2.5, 11.5)];
  svg(of, "circle", {class: "lamp near", cx: near[0], cy: near[1], r: 3.3});
  svg(of, "circle", {class: "lamp distant", cx: distant[0], cy: distant[1], r: 3.3});
  return {of, box: put(-11.5, 11.5), aside: [nx, ny], along: [dx, dy]};
}

// ---- words stand at the first of some places where they meet nothing that stands already, or where they meet least

let boxes = [], labels = new Map(), masts = new Map(), letter = 9.5;
const meet = (one, other) => one[0] < other[2] && other[0] < one[2] && one[1] < other[3] && other[1] < one[3];

function words(parent, places, said, className, cost) {
  const best = freest(places, halfOf(said) + 1, letter * .53, cost);
  // words side by side keep a little apart
  boxes.push(boxAt(best, halfOf(said) + 5, letter * .53));
  writing(parent, ...best, said, className);
  return best;
}

const boxAt = ([x, y], half, high) => [x - half, y - high, x + half, y + high];

function freest(places, half, high, cost = () => 0) {
  let best = places[0], least = Infinity;
  for (const one of places) {
    const number = boxes.filter(box => meet(box, boxAt(one, half, high))).length + cost(one);
    if (number < least) { best = one; least = number; }
    if (least === 0) break;
  }
  return best;
}

const halfOf = said => said.length * letter * .303;
const writing = (parent, x, y, said, className) => svg(parent, "text", {x, y: y + letter * .36, class: className, "text-anchor": "middle"}, said);

// What words aren't to meet: rails, joints and signals.
function takePlaces() {
  boxes = [];
  labels = new Map();
  masts = new Map();
  for (const rail of Object.keys(drawing.rails)) {
    const [[a, b], [c, e]] = railEnds(rail).map(at);
    for (let part = 0; part <= 4; part++) { const [x, y] = [a + (c - a) * part / 4, b + (e - b) * part / 4]; boxes.push([x - 3, y - 4.5, x + 3, y + 4.5]); }
  }
  for (const key of Object.keys(drawing.marks)) { const [x, y] = at(key); boxes.push([x - 1.5, y - 8, x + 1.5, y + 8]); }
}

const group = (kind, name) => svg(by("d-things"), "g", {class: kind + (isChosen(kind, name) ? " chosen" : "")});
// Places for words, of which the first ones are the best.
const ABOUT_POINT = [[0, -14], [0, 15], [-12, -14], [12, -14], [-12, 15], [12, 15], [0, -24], [0, 26], [-22, 12], [22, 12], [22, -12], [-22, -12]];
const BELOW_TRACK = [[-18, 14], [18, 14], [-36, 14], [36, 14], [0, 25], [0, -24]];
const about = (x, y, places) => places.map(([dx, dy]) => [x + dx, y + dy]);

function paintThings() {
  takePlaces();
  for (const [key, mark] of Object.entries(drawing.marks)) paintMark(key, mark);
  const signals = drawing.signals.map(paintSignal);
  for (const [key, of] of read.kinds) if (of.kind === "end") drawJoint(by("d-marks"), key, of.ways, "buffer", 6);
  for (const [key, of] of read.kinds) if (["border", "lonely"].includes(of.kind)) paintBorder(key, of);
  for (const named of signals) named();
  for (const [key, of] of read.kinds) if (of.kind === "point") paintPoint(key);
  read.groups.forEach(paintSection);
}

function paintMark(key, mark) {
  const of = read.kinds.get(key), [cx, cy] = at(key), parent = svg(by("d-marks"), "g", {class: "mark" + (isChosen("mark", key) ? " chosen" : "")});
  svg(parent, "circle", {class: "ring", cx, cy, r: 10});
  drawJoint(parent, key, of.ways, "joint" + (mark.divides ? "" : " none"));
}

// Draws a signal, and answers what writes its name once all signals stand.
function paintSignal(one) {
  const back = read.kinds.get(one.at)?.ways.find(way => way !== one.toward), {of, box: [x, y], aside: [nx, ny], along: [dx, dy]} = drawSignal(by("d-things"), one.at, one.toward, back);
  of.id = "signal." + one.name;
  of.classList.toggle("chosen", isChosen("signal", one.name));
  of.prepend(svg(of, "circle", {class: "ring", cx: x, cy: y, r: 14}));
  boxes.push([x - Math.abs(dx) * 11 - 4, y - Math.abs(dy) * 11 - 4, x + Math.abs(dx) * 11 + 4, y + Math.abs(dy) * 11 + 4]);
  const far = 11 + Math.abs(nx) * 5 + Math.abs(nx) * one.name.length * letter * .17, put = (along, aside) => [x + dx * along + nx * aside, y + dy * along + ny * aside];
  const places = [[0, far], [-10, far], [10, far], [-24, 0], [-20, far], [14, far + 6], [0, far + 10], [-30, 4], [-16, far + 10], [14, 6], [18, 2], [20, far]];
  masts.set(one.name, [x, y]);
  return () => labels.set(one.name, words(of, places.map(place => put(...place)), one.name, "name", place => strangeness(one.name, place)));
}

// By how much another signal stands nearer to a place than the one whose name is to be there: nothing where none does.
function strangeness(name, [x, y]) {
  const far = ([u, v]) => Math.hypot(x - u, y - v), own = far(masts.get(name)), others = [...masts].filter(([other]) => other !== name).map(([, mast]) => far(mast));
  return Math.max(0, 1 - Math.min(own, ...others) / own);
}

function paintBorder(key, of) {
  const [x, y] = at(key), [dx, dy] = normalOf(of.ways[0] ?? 0), parent = group("border", key), name = drawing.borders[key];
  svg(parent, "circle", {class: "ring", cx: x, cy: y, r: 12});
  svg(parent, "path", {class: "arrow", d: `M${x - dx * 4 - dy * 7} ${y - dy * 4 + dx * 7}L${x + dx * 8} ${y + dy * 8}L${x - dx * 4 + dy * 7} ${y - dy * 4 - dx * 7}Z`});
  const aside = halfOf(name) + 8;
  labels.set(name, words(parent, [[x, y - 15], [x, y + 16], [x - dx * aside, y], [x, y - 25], [x, y + 27]], name, "name"));
}

function paintPoint(key) {
  const [x, y] = at(key), {name} = drawing.points[key], parent = group("point", key);
  svg(parent, "circle", {class: "ring", cx: x, cy: y, r: 11});
  labels.set(name, words(parent, about(x, y, ABOUT_POINT), name, "name"));
}

// A section's name stands by its first point, or else below its longest level run.
function paintSection(one) {
  if (one.points.length) {
    const [key] = [...one.points].sort((a, b) => drawing.points[a].id - drawing.points[b].id), [x, y] = at(key), [u, v] = labels.get(drawing.points[key].name);
    const beside = [u, v + (v < y ? -1.12 : 1.12) * letter];
    labels.set(one.name, words(by("d-things"), [beside, ...about(x, y, ABOUT_POINT), [x, y - 35], [x, y + 36]], one.name, "label"));
    return;
  }
  const isLevel = run => run.places.every(key => spot(key)[1] === spot(run.places[0])[1]);
  const best = [...one.runs].sort((a, b) => isLevel(b) - isLevel(a) || b.rails.length - a.rails.length)[0];
  const [[a, b], [c, e]] = [at(best.places[0]), at(best.places.at(-1))], far = isLevel(best) ? 0 : 14;
  const [x, y] = isLevel(best) ? [(a + c) / 2, (b + e) / 2] : at(best.places[best.places.length >> 1]);
  labels.set(one.name, words(by("d-things"), [[x + far, y + 14], [x - far, y - 13], ...about(x, y, BELOW_TRACK)], one.name, "label"));
}

// ---- what is pointed at: faults at their places, a way with what guards it

function repaintLit() {
  const over = by("d-over");
  if (!over) return;
  by("d-ways").replaceChildren();
  over.replaceChildren();
  faultsNow().forEach((one, number) => one.at.forEach(key => paintRing(over, key, number + 1, isLit(one))));
  if (lit && read.notes.includes(lit)) for (const key of lit.at) svg(over, "circle", {class: "faulty of-note", cx: at(key)[0], cy: at(key)[1], r: 12});
  const one = lit || (chosen?.kind === "route" ? table.routes.find(it => it.key === chosen.key) : null), way = one && (one.way || (one.path ? one : null));
  if (way) paintWay(over, way);
  paintGhost(over);
}

const isLit = one => lit !== null && lit.text !== undefined && lit.text === one.text;

function paintRing(over, key, number, isStrong) {
  const [x, y] = at(key), parent = svg(over, "g", {class: "number"}), free = ([dx, dy]) => !boxes.some(box => meet(box, [x + dx - 6, y + dy - 6, x + dx + 6, y + dy + 6]));
  const [dx, dy] = [[11, -11], [11, 11], [-11, 11], [-11, -11]].find(free) || [11, -11];
  svg(over, "circle", {class: "faulty" + (isStrong ? " lit" : ""), cx: x, cy: y, r: 12});
  svg(parent, "circle", {cx: x + dx, cy: y + dy, r: 6.4});
  svg(parent, "text", {x: x + dx, y: y + dy + 3, "text-anchor": "middle"}, String(number));
  over.append(parent);
}

function paintWay(over, way) {
  const isBad = Boolean(way.causes?.length), path = way.path.map(one => one.leave || one), drawn = new Set();
  if (!table.site.portOf.has(way.entry)) return;
  let from = table.site.portOf.get(way.entry);
  for (const leave of path) {
    const enter = table.site.joint.get(from);
    if (!enter || !leaves(table.site, enter).includes(leave)) return;
    for (const run of runsOf(enter, leave)) { svg(by("d-ways"), "path", {class: "way" + (isBad ? " bad" : ""), d: course(run.places)}); drawn.add(run); }
    from = leave;
  }
  if (isBad) return;
  for (const name of way.approach) for (const run of read.where.section.get(name)?.runs || []) if (!drawn.has(run)) svg(by("d-ways"), "path", {class: "coming", d: course(run.places)});
  for (const [name, lies] of Object.entries(way.flank)) paintFlank(over, name, lies);
}

// The runs of rail of one passage: that of a track, or those of two ports of a point.
function runsOf(enter, leave) {
  const run = read.where.track.get(elementOf(leave)), key = read.where.point.get(elementOf(leave));
  return run ? [run] : [enter, leave].map(port => read.runOf.get(railKey(key, read.kinds.get(key)[endOf(port)])));
}

// A guarding point has a ring, and a tag over its name or beside it.
function paintFlank(over, name, lies) {
  const parent = svg(over, "g", {class: "flank"}), [cx, cy] = at(read.where.point.get(name)), [u, v] = labels.get(name);
  const said = name + " " + lies, half = halfOf(said) + 4, high = letter * .66, aside = half - halfOf(name);
  const own = boxes.findIndex(box => meet(box, boxAt([u, v], 1, 1))), [kept] = boxes.splice(own, 1);
  const [x, y] = freest([[u, v], [u - aside, v], [u + aside, v], [u, v - 6], [u, v + 6], [u - aside - 8, v], [u + aside + 8, v], [cx, cy + 26], [cx, cy - 26]], half, high);
  boxes.push(kept);
  svg(parent, "circle", {cx, cy, r: 8});
  svg(parent, "rect", {x: x - half, y: y - high, width: half * 2, height: 2 * high, rx: 2.5});
  writing(parent, x, y, said, "name");
}

// ---- what a click would do

function paintGhost(over) {
  const ghost = svg(over, "g", {class: "ghost"}), [cx, cy] = at(cursor), of = read.kinds.get(cursor);
  svg(over, "circle", {class: "cursor", cx, cy, r: 5});
  if (tool === "rail" && (chain || stroke?.from)) {
    const places = bestPath(drawing, chain || stroke.from, cursor, isOther);
    if (harm(drawing, places)) ghost.classList.add("bad");
    if (places.length > 1) svg(ghost, "path", {class: "rail", d: course(places)});
  }
  if (tool === "signal") ghostSignal(ghost);
  if (tool === "joint" && of?.kind === "rail") drawJoint(ghost, cursor, of.ways, "joint");
  if (tool === "border" && of?.kind === "end") svg(ghost, "circle", {class: "arrow", cx, cy, r: 6});
}

function ghostSignal(ghost) {
  const one = signalSpot();
  if (!one) return;
  const of = read.kinds.get(one.key), back = of.ways.find(way => way !== one.toward), [x, y] = at(one.key), [dx, dy] = normalOf(one.toward), [nx, ny] = [-dy, dx];
  drawSignal(ghost, one.key, one.toward, back);
  if (of.kind === "rail") drawJoint(ghost, one.key, of.ways, "joint");
  // the way of the trains that it rules
  const put = (along, aside) => (x + dx * along + nx * aside) + " " + (y + dy * along + ny * aside);
  svg(ghost, "path", {class: "goes", d: `M${put(-24, 20)}L${put(2, 20)}M${put(-3, 17)}L${put(2, 20)}L${put(-3, 23)}`});
}

"##] $($later)*)
    };
}

pub(crate) use plan;
