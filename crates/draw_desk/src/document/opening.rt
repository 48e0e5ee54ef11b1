//! From a layout to a drawing.

/// Lays the rails of a layout by its positions, and keeps what was chosen by hand.
macro_rules! opening {
    ([$($before:literal)*] $next:ident $($later:ident)*) => {
        $next!([$($before)* r##"// ---- from a layout to a drawing

// The places of a drawing lie within so many of its middle.
const FARTHEST = 4000;
const KEYS = ["station", "section", "track", "point", "border", "joint", "signal", "detector"];

// A route is told by the signal at which it begins, the sides at its points, and its end: names alone, so that a joint more or a
// longer rail leaves it the same.
const signature = one => one.entry + "|" + Object.entries(one.points).map(([point, side]) => point + ":" + side).join(" ") + "|" + one.exit;

// The drawing of a layout, and what is to be told about it.
function opened(text) {
  const l = new Toml(text).read(), told = [];
  judgeKeys(l);
  l.route ??= [];
  const drawing = atItsPlaces(l) || placed(l);
  if (!drawing) throw new Error("no place was found for all of its rails on the grid");
  if (l.drawing && drawing.isPlaced) told.push("positions were missing or didn't fit: it was placed anew");
  delete drawing.isPlaced;
  keepChoices(drawing, l, told);
  return {drawing, told};
}

// What `station check` would refuse before it looks at routes isn't opened.
function judgeKeys(l) {
  for (const key of KEYS) if (l[key] === undefined) throw new Error("the key `" + key + "` isn't there");
  const wrong = KEYS.find(key => key !== "station" && !Array.isArray(l[key]));
  if (wrong) throw new Error("the key `" + wrong + "` has no array");
  const portsOf = (list, ends) => list.flatMap(name => ends.map(end => name + "." + end)), names = list => list.map(one => one.name);
  const ports = new Set([...portsOf(names(l.track), ["a", "b"]), ...portsOf(names(l.point), ["tip", "left", "right"]), ...portsOf(l.border, ["end"])]), sections = new Set(l.section);
  const port = [...l.joint.flat(), ...l.signal.map(one => one.at)].find(port => !ports.has(port)), unknown = port ?? [...l.track, ...l.point].map(one => one.section).find(name => !sections.has(name));
  if (unknown !== undefined) throw new Error(unknown + " isn't there");
  const twins = l.joint.find(pair => pair.every(port => endOf(port) === "end"));
  if (twins) throw new Error("the borders " + twins.map(elementOf).join(" and ") + " are joined to one another");
}

// As it was drawn, if its positions are whole and give this very layout.
function atItsPlaces(l) {
  if (!l.drawing) return null;
  try {
    const drawing = drawnBy(l, l.drawing);
    return isSame(new Reading(structuredClone(drawing)).l, l) ? drawing : null;
  } catch {
    return null;
  }
}

// What two layouts have in common that have the same topology.
function canonical(l) {
  const joints = l.joint.map(pair => [...pair].sort().join()), elements = [...l.track, ...l.point].map(one => one.name + " " + one.section), signals = l.signal.map(one => one.name + " " + one.at);
  return JSON.stringify([joints, elements, signals, [...l.border]].map(list => list.sort()));
}

const isSame = (one, other) => canonical(one) === canonical(other);

// Lays rails along lines: of each track, and of each port of a point from the point outward.
function drawnBy(l, lines) {
  const drawing = newDrawing(), ends = new Map();
  Object.assign(drawing.station, {name: l.station.name, id: l.station.id, key: l.station.key || ""});
  const sections = new Map([...l.track, ...l.point].map(one => [one.name, one.section]));
  for (const one of l.track) {
    const places = layLine(drawing, lines[one.name], {track: {name: one.name, own: true}, section: {name: one.section, own: true}});
    ends.set(one.name + ".a", {key: places[0], back: wayFrom(places[0], places[1])});
    ends.set(one.name + ".b", {key: places.at(-1), back: wayFrom(places.at(-1), places.at(-2))});
    const order = byPlace(places[0], places.at(-1)) || ends.get(one.name + ".a").back - ends.get(one.name + ".b").back;
    if (order > 0) drawing.reversed.push(one.name);
  }
  for (const one of l.point) for (const end of ["tip", "left", "right"]) {
    const places = layLine(drawing, lines[one.name + "." + end], {section: {name: one.section, own: true}}, true);
    drawing.points[places[0]] = {name: one.name, id: one.id, own: true};
    ends.set(one.name + "." + end, {key: places.at(-1), back: wayFrom(places.at(-1), places.at(-2)), places});
  }
  putJoints(drawing, l, ends, sections, lines);
  for (const one of l.signal) drawing.signals.push({name: one.name, id: one.id, ...signalPlace(drawing, one.at, ends)});
  drawing.detectors = l.detector.map(one => ({name: one.name, id: one.id, sections: [...one.sections]}));
  drawing.scattered = [...l.section];
  drawing.order = namesOf(l);
  return drawing;
}

// The farther half of a line from a point may be another point's.
function layLine(drawing, numbers, value, isHalf) {
  if (!numbers.every(one => Number.isInteger(one) && Math.abs(one) <= FARTHEST)) throw new Error("a position isn't on the grid");
  const places = [place(numbers[0], numbers[1])];
  for (let at = 2; at < numbers.length; at += 2) places.push(...pathBetween(places.at(-1), place(numbers[at], numbers[at + 1]), false).slice(1));
  for (let at = 1; at < places.length; at++) {
    const rail = railKey(places[at - 1], wayFrom(places[at - 1], places[at]));
    if (isHalf && 2 * at > places.length) drawing.rails[rail] ??= {};
    else drawing.rails[rail] = structuredClone(value);
  }
  return places;
}

function putJoints(drawing, l, ends, sections, lines) {
  const signalAt = new Set(l.signal.map(one => one.at)), joined = new Set(l.joint.flat());
  for (const [one, other] of l.joint) {
    const border = [one, other].find(port => endOf(port) === "end"), rail = [one, other].find(port => endOf(port) !== "end");
    if (border) { drawing.borders[ends.get(rail).key] = elementOf(border); ends.set(border, ends.get(rail)); continue; }
    const divides = sections.get(elementOf(one)) !== sections.get(elementOf(other)), end = ends.get(one);
    if (end.key in drawing.points) {
      // two points that are joined rail to rail need a joint only where sections end, or a signal stands
      if (!divides && !signalAt.has(one) && !signalAt.has(other)) continue;
      moveEnds(ends.get(one), ends.get(other));
    }
    drawing.marks[end.key] = {divides};
  }
  for (const name of l.border) if (!joined.has(name + ".end")) drawing.borders[place(...lines[name])] = name;
}

// Both ends come to one place of the run between two points: as near to its middle as it goes straight on.
function moveEnds(one, other) {
  const {places} = one, middle = places.length / 2, isBent = at => wayFrom(places[at - 1], places[at]) !== wayFrom(places[at], places[at + 1]);
  const inner = places.map((_, at) => at).slice(1, -1).sort((a, b) => isBent(a) - isBent(b) || Math.abs(a - middle) - Math.abs(b - middle));
  if (!inner.length) throw new Error("no room for a joint");
  const [at] = inner;
  Object.assign(other, {key: places[at], back: wayFrom(places[at], places[at + 1])});
  Object.assign(one, {key: places[at], back: wayFrom(places[at], places[at - 1])});
}

// Where a signal stands, and the way in which a train passes it that leaves by the port.
function signalPlace(drawing, port, ends) {
  if (endOf(port) === "end") {
    const key = Object.keys(drawing.borders).find(key => drawing.borders[key] === elementOf(port)), [way] = waysAt(drawing, key);
    return {at: key, toward: way ?? 0};
  }
  const {key, back} = ends.get(port), on = waysAt(drawing, key).find(way => way !== back);
  return {at: key, toward: on ?? turned(back)};
}

// ---- what was chosen by hand: slow legs, the rule of approach, names, aspects, approaches, extra conflicts, and what is left out

function keepChoices(drawing, l, told) {
  keepSlow(drawing, l);
  const read = new Reading(drawing);
  drawing.scattered = drawing.scattered.filter(name => isScattered(drawing, read.where.section.get(name)));
  drawing.rule = ruleOf(read.l, l.route);
  const {routes, site} = derive(read.l, drawing.rule), byName = new Map();
  for (const one of routes) {
    const old = l.route.find(it => it.entry === one.entry && it.path.join() === one.path.join());
    if (!old) { if (l.route.length) drawing.without.push(signature(one)); continue; }
    byName.set(old.name, signature(one));
    keepAside(drawing, one, old);
  }
  for (const one of l.route) keepExtra(drawing, one, byName);
  for (const one of l.route.filter(one => !byName.has(one.name))) told.push(notDerived(site, one, l.route));
}

// Marks of a file; where it has none, a leg is slow that some route uses and no fast one.
function keepSlow(drawing, l) {
  const isMarked = l.point.some(one => one.slow !== undefined), fast = new Set(), used = new Set();
  for (const one of l.route) for (const [point, side] of Object.entries(one.points)) {
    used.add(point + " " + side);
    if ((one.aspect || "proceed") === "proceed") fast.add(point + " " + side);
  }
  const drawn = new Map(new Reading(structuredClone(drawing)).l.point.map(one => [one.name, one.slow]));
  const has = (slow, side) => slow === side || slow === "both";
  for (const one of l.point) for (const side of ["left", "right"]) {
    const leg = one.name + " " + side, isSlow = isMarked || l.route.length === 0 ? has(one.slow, side) : used.has(leg) ? !fast.has(leg) : has(drawn.get(one.name), side);
    if (isSlow !== has(drawn.get(one.name), side)) drawing.slow[leg] = isSlow;
  }
}

// The rule by which more of the approach lists of a file were made.
function ruleOf(l, routes) {
  const site = siteOf(l), fits = rule => routes.filter(one => site.portOf.has(one.entry) && APPROACHES[rule](site, site.portOf.get(one.entry)).join() === (one.approach || []).join()).length;
  return fits("berth") > fits("signal") ? "berth" : "signal";
}

function keepAside(drawing, one, old) {
  const aside = {}, approach = old.approach || [], order = [...approach].sort().join();
  if (old.name !== one.name) aside.name = old.name;
  if ((old.aspect || "proceed") !== one.aspect) aside.aspect = old.aspect || "proceed";
  if (order !== [...one.approach].sort().join()) aside.approach = approach;
  if (Object.keys(aside).length) drawing.asides[signature(one)] = aside;
}

function keepExtra(drawing, one, byName) {
  for (const name of one.extra || []) {
    const pair = [byName.get(one.name), byName.get(name)].sort();
    if (pair.every(Boolean) && !drawing.extra.some(it => it.join("\n") === pair.join("\n"))) drawing.extra.push(pair);
  }
}

function notDerived(site, one, all) {
  const number = site.portOf.has(one.entry) ? judge(site, {...one, flank: one.flank || {}}, all) : 0;
  return `route ${one.name} of the file isn't kept: ` + (number ? "table fault " + number + " " + TABLE_FAULTS[number] : "nothing leads so");
}

// Whether a section has parts that don't hang together.
function isScattered(drawing, group) {
  if (!group) return false;
  const union = new Union(), parts = new Set();
  for (const run of group.runs) for (const key of [run.from, run.to]) if (drawing.points[key] || drawing.marks[key]?.divides === false) union.join(key, run.id);
  for (const run of group.runs) parts.add(union.find(run.id));
  return parts.size > 1;
}

"##] $($later)*)
    };
}

pub(crate) use opening;
