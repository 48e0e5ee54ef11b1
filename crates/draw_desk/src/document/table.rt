//! The control table that a topology gives.

/// Derives routes, and judges tables. Nothing of it is proved: `station check` is.
macro_rules! table {
    ([$($before:literal)*] $next:ident $($later:ident)*) => {
        $next!([$($before)* r##"// ---- the table that a topology gives. A port is a text as "W1.left"

const LIMITS = {section: 64, track: 128, point: 32, border: 16, signal: 32, detector: 16, route: 64};
const LONGEST_PATH = 64, LONGEST_DETECTOR = 16;
const OTHER = {left: "right", right: "left"};
const elementOf = port => port.slice(0, port.lastIndexOf("."));
const endOf = port => port.slice(port.lastIndexOf(".") + 1);

// What the rules look at, with indices. `l` has the keys of a layout file.
function siteOf(l) {
  const kind = new Map(), section = new Map();
  for (const one of l.track) { kind.set(one.name, "track"); section.set(one.name, one.section); }
  for (const one of l.point) { kind.set(one.name, "point"); section.set(one.name, one.section); }
  for (const name of l.border) kind.set(name, "border");
  const joint = new Map(l.joint.flatMap(([one, other]) => [[one, other], [other, one]]));
  const signalAt = new Map(l.signal.map(one => [one.at, one.name])), portOf = new Map(l.signal.map(one => [one.name, one.at]));
  return {l, kind, section, joint, signalAt, portOf, order: new Map(l.section.map((name, at) => [name, at]))};
}

// The ports by which a train that entered by one may leave, left before right.
function leaves(site, enter) {
  const name = elementOf(enter), end = endOf(enter), kind = site.kind.get(name);
  if (kind === "track") return [name + (end === "a" ? ".b" : ".a")];
  if (kind !== "point") return [];
  return end === "tip" ? [name + ".left", name + ".right"] : [name + ".tip"];
}

// The point that a passage passes and the side of the leg that it uses.
function usedBy(site, enter, leave) {
  const name = elementOf(leave);
  return site.kind.get(name) === "point" ? [name, endOf(leave) === "tip" ? endOf(enter) : endOf(leave)] : null;
}

// What guards the leg that isn't used of a point at a side: a point at a side, nothing where nothing is wanted, or it is open.
function flankOf(site, point, side) {
  const leg = point + "." + OTHER[side], far = site.joint.get(leg);
  if (!far) return {};
  const name = elementOf(far), isLeg = site.kind.get(name) === "point" && endOf(far) in OTHER;
  if (isLeg && name !== point) return {point: name, side: OTHER[endOf(far)]};
  return site.signalAt.has(far) ? {} : {open: leg, far};
}

// At what a way ends that leaves by a port: the signal there, or else the border that is joined to it.
function exitAt(site, port) {
  if (site.signalAt.has(port)) return site.signalAt.get(port);
  const far = site.joint.get(port);
  return far && site.kind.get(elementOf(far)) === "border" ? elementOf(far) : null;
}

const inOrder = (site, sections) => [...sections].sort((one, other) => site.order.get(one) - site.order.get(other));

// The sections by which a train comes to a signal: back to the signal before it, a border or a dead end.
function comingTo(site, port) {
  const todo = [port], seen = new Set(), sections = new Set();
  while (todo.length) {
    const leave = todo.pop();
    for (const enter of leaves(site, leave)) {
      if (seen.has(enter + " " + leave)) continue;
      seen.add(enter + " " + leave);
      sections.add(site.section.get(elementOf(leave)));
      const before = site.joint.get(enter);
      if (before && !site.signalAt.has(before)) todo.push(before);
    }
  }
  return inOrder(site, sections);
}

// The section of the signal's own element, and of the tracks before it up to the first point, signal or border.
function berthOf(site, port) {
  const sections = new Set(), seen = new Set();
  let leave = port, kind = site.kind.get(elementOf(port));
  if (kind === "point") return [site.section.get(elementOf(port))];
  while (kind === "track" && !seen.has(leave)) {
    seen.add(leave);
    sections.add(site.section.get(elementOf(leave)));
    leave = site.joint.get(leaves(site, leave)[0]);
    kind = leave && !site.signalAt.has(leave) ? site.kind.get(elementOf(leave)) : null;
  }
  return inOrder(site, sections);
}

const APPROACHES = {signal: comingTo, berth: berthOf};

// ---- ways

// All ways from the signals, with what keeps each from being a route; where `isWhole` isn't given, the routes alone. After so
// many passages the search is cut.
function waysOf(site, isWhole, most) {
  const found = {ways: [], stuck: [], steps: 0, most, isWhole};
  for (const {name, at} of site.l.signal) go(site, found, {entry: name, path: [], elements: new Set(), sections: []}, at, {}, []);
  found.isCut = found.steps > most;
  return found;
}

function go(site, found, train, from, needs, causes) {
  const enter = site.joint.get(from), why = stopsAt(site, train, enter);
  if (why) return found.stuck.push({entry: train.entry, why});
  const name = elementOf(enter), section = site.section.get(name), isNew = train.sections.at(-1) !== section;
  train.elements.add(name);
  if (isNew) train.sections.push(section);
  for (const leave of leaves(site, enter)) {
    if (++found.steps > found.most) break;
    train.path.push({enter, leave});
    pass(site, found, train, {enter, leave}, {...needs}, [...causes]);
    train.path.pop();
  }
  if (isNew) train.sections.pop();
  train.elements.delete(name);
}

// Why no way goes on over a port.
function stopsAt(site, train, enter) {
  if (!enter) return "a dead end";
  const name = elementOf(enter), section = site.section.get(name);
  if (site.kind.get(name) === "border") return "it leads out of the station";
  if (train.elements.has(name)) return "it comes to " + name + " again";
  if (train.sections.at(-1) !== section && train.sections.includes(section)) return "it comes back to section " + section;
  return train.path.length >= LONGEST_PATH ? "it has over " + LONGEST_PATH + " elements" : null;
}

function pass(site, found, train, {enter, leave}, needs, causes) {
  require(site, usedBy(site, enter, leave), needs, causes);
  if (causes.length && !found.isWhole) return;
  const exit = exitAt(site, leave);
  if (exit === null) return go(site, found, train, leave, needs, causes);
  if (exit === train.entry) found.stuck.push({entry: train.entry, why: "it comes back to its own signal"});
  else found.ways.push({entry: train.entry, exit, path: [...train.path], causes});
}

// Adds what a passage requires, and what keeps it from being passable.
function require(site, used, needs, causes) {
  if (!used) return;
  const need = (point, side, by) => {
    if (needs[point] && needs[point].side !== side) causes.push({kind: "both", point, side, by, other: needs[point].by});
    else needs[point] ??= {side, by};
  };
  const flank = flankOf(site, ...used);
  need(...used, "the way itself");
  if (flank.point) need(flank.point, flank.side, used[0] + "." + OTHER[used[1]]);
  if (flank.open) causes.push({kind: "open", leg: flank.open, far: flank.far});
}

// ---- routes

function routeOf(site, way, isSlow, rule) {
  const points = {}, flank = {};
  for (const {enter, leave} of way.path) {
    const used = usedBy(site, enter, leave);
    if (used) points[used[0]] = used[1];
  }
  for (const [point, side] of Object.entries(points)) {
    const far = flankOf(site, point, side);
    if (far.point && !(far.point in points)) flank[far.point] = far.side;
  }
  const aspect = Object.entries(points).some(([point, side]) => isSlow(point, side)) ? "slow" : "proceed";
  return {name: "", entry: way.entry, exit: way.exit, path: way.path.map(one => one.leave), points, flank, approach: APPROACHES[rule](site, site.portOf.get(way.entry)), extra: [], aspect};
}

const namesOf = l => [l.station.name, ...l.section, ...l.border, ...["track", "point", "signal", "detector"].flatMap(key => l[key].map(one => one.name))];

// A-N1, then A-N1-2 and so on; where that is too long or another name, R1, R2 and so on.
function nameRoutes(l, routes) {
  const used = new Set(namesOf(l));
  for (const one of routes) {
    const base = one.entry + "-" + one.exit;
    let name = base, number = 1;
    while (name.length <= 20 && used.has(name)) name = base + "-" + ++number;
    for (number = 1; name.length > 20 || used.has(name); number++) name = "R" + number;
    used.add(name);
    one.name = name;
  }
}

const slowBy = l => {
  const slow = new Map(l.point.map(one => [one.name, one.slow]));
  return (point, side) => slow.get(point) === side || slow.get(point) === "both";
};

// The routes of a layout, and the ways that are none with their causes.
function derive(l, rule = "signal") {
  const site = siteOf(l), found = waysOf(site, false, 100000);
  const routes = found.ways.map(way => routeOf(site, way, slowBy(l), rule));
  nameRoutes(l, routes);
  const all = waysOf(site, true, 20000);
  return {site, routes, isCut: found.isCut, stuck: all.stuck, impossible: all.ways.filter(way => way.causes.length > 0)};
}

// ---- what `check` finds: the first fault of a route, by the table of its faults

const TABLE_FAULTS = ["", "PathBroken", "PathRepeats", "PointMissing", "PointWrong", "FlankMissing", "FlankOpen", "FlankContradicts", "SignalPlace", "NotSymmetric"];

function judge(site, route, all) {
  const used = pathOf(site, route);
  if (used === null) return 1;
  const sections = route.path.map(port => site.section.get(elementOf(port))).filter((one, at, of) => one !== of[at - 1]);
  if (new Set(route.path.map(elementOf)).size < route.path.length || new Set(sections).size < sections.length) return 2;
  return judgePoints(site, route, used) || judgeEnd(site, route) || judgeExtra(route, all);
}

// The points that the path of a route uses, with their sides; null where it is broken.
function pathOf(site, route) {
  const used = new Map();
  let from = site.portOf.get(route.entry);
  for (const leave of route.path) {
    const enter = site.joint.get(from);
    if (!enter || !leaves(site, enter).includes(leave)) return null;
    const use = usedBy(site, enter, leave);
    if (use) used.set(...use);
    from = leave;
  }
  return route.path.length ? used : null;
}

function judgePoints(site, route, used) {
  const points = route.points, flank = route.flank || {}, required = new Set(), guards = [...used].map(([point, side]) => flankOf(site, point, side));
  for (const [point, side] of used) required.add(point + " " + side);
  for (const one of guards) if (one.point) required.add(one.point + " " + one.side);
  const isWrong = (sides, isOn) => Object.entries(sides).some(([point, side]) => used.has(point) !== isOn || !required.has(point + " " + side));
  if ([...used.keys()].some(point => !(point in points))) return 3;
  if (isWrong(points, true) || isWrong(flank, false)) return 4;
  if (guards.some(one => one.point && !used.has(one.point) && !(one.point in flank))) return 5;
  if (guards.some(one => one.open)) return 6;
  const turned = one => one.replace(/(left|right)$/, side => OTHER[side]);
  return [...required].some(one => required.has(turned(one))) ? 7 : 0;
}

function judgeEnd(site, route) {
  const last = route.path.at(-1), isBorder = site.kind.get(route.exit) === "border";
  const isAtEnd = isBorder ? elementOf(site.joint.get(last) || ".") === route.exit : site.signalAt.get(last) === route.exit;
  const isInTheWay = port => site.signalAt.has(port) && site.signalAt.get(port) !== route.exit;
  return !isAtEnd || route.exit === route.entry || route.path.some(isInTheWay) ? 8 : 0;
}

function judgeExtra(route, all) {
  const lists = name => all.find(one => one.name === name)?.extra || [];
  return (route.extra || []).some(name => name === route.name || !lists(name).includes(route.name)) ? 9 : 0;
}

"##] $($later)*)
    };
}

pub(crate) use table;
