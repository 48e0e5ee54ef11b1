//! Names and identities.

/// Gives names to what has none, puts sections to detectors, and judges both.
macro_rules! names {
    ([$($before:literal)*] $next:ident $($later:ident)*) => {
        $next!([$($before)* r##"// ---- names: points and signals have their own, tracks and sections that which is written at most of their rails

const freeName = (head, taken) => { let number = 1; while (taken.has(head + number)) number++; return head + number; };
const freeId = (from, taken) => { let id = from; while (taken.has(id)) id++; return id; };
const pointsOf = drawing => Object.values(drawing.points).filter(one => !one.gone);
const idsOf = drawing => new Set([drawing.station, ...drawing.signals, ...pointsOf(drawing), ...drawing.detectors].map(one => one.id));

// The names that were given by hand: a made one gives way to them.
function ownNames(drawing) {
  const rails = Object.values(drawing.rails).flatMap(one => [one.track, one.section]).filter(one => one?.own).map(one => one.name);
  const points = pointsOf(drawing).filter(one => one.own).map(one => one.name);
  return new Set([drawing.station.name, ...Object.values(drawing.borders), ...drawing.signals.map(one => one.name), ...drawing.detectors.map(one => one.name), ...points, ...rails]);
}

function nameAll(read) {
  const {drawing} = read, taken = ownNames(drawing);
  const points = read.stops.filter(key => read.isPoint(key));
  for (const one of points.map(key => drawing.points[key]).filter(Boolean)) keepName(one, taken);
  for (const key of points) if (!drawing.points[key]?.name) namePoint(drawing, key, taken);
  const tracks = read.runs.filter(run => run.isTrack);
  for (const one of tracks) one.all = one.rails;
  settle(drawing, tracks, "track", taken, () => freeName("T", taken));
  for (const one of read.groups) one.all = one.runs.flatMap(run => run.rails);
  // a section's made name follows its point or its track
  for (const rail of Object.values(drawing.rails)) if (rail.section && !rail.section.own) delete rail.section;
  gatherScattered(read);
  settle(drawing, read.groups, "section", taken, one => sectionName(drawing, one, taken));
}

// A made name stays, unless something else was given it by hand.
function keepName(point, taken) {
  if (!point.own && taken.has(point.name)) delete point.name;
  else taken.add(point.name);
}

function namePoint(drawing, key, taken) {
  drawing.points[key] = {id: drawing.points[key]?.id ?? freeId(201, idsOf(drawing)), name: freeName("W", taken), own: false, gone: false};
  taken.add(drawing.points[key].name);
}

function sectionName(drawing, group, taken) {
  const points = group.points.map(key => drawing.points[key]).sort((one, other) => one.id - other.id);
  const name = "G" + (points[0]?.name || group.runs.find(run => run.isTrack)?.name || "");
  return name.length <= 20 && name !== "G" && !taken.has(name) ? name : freeName("G", taken);
}

// The name that is written at most of these rails; own ones before made ones.
function mostOf(drawing, rails, what) {
  const count = new Map();
  for (const one of rails.map(rail => drawing.rails[rail][what]).filter(Boolean)) count.set(one.name, {name: one.name, own: one.own, number: (count.get(one.name)?.number || 0) + 1});
  return [...count.values()].sort((one, other) => other.own - one.own || other.number - one.number)[0];
}

// Parts of one section that don't hang together.
function gatherScattered(read) {
  const whole = new Map();
  read.groups = read.groups.filter(one => {
    const most = mostOf(read.drawing, one.all, "section");
    if (!most?.own || !read.drawing.scattered.includes(most.name)) return true;
    const first = whole.get(most.name);
    if (!first) { whole.set(most.name, one); return true; }
    for (const what of ["runs", "points", "all"]) first[what].push(...one[what]);
    return false;
  });
}

// The larger part of what had a name keeps it; what is left gets one that is made.
function settle(drawing, all, what, taken, make) {
  const given = new Set();
  const wants = all.map(one => ({one, want: mostOf(drawing, one.all, what)}));
  wants.sort((a, b) => (b.want?.own || 0) - (a.want?.own || 0) || (b.want?.number || 0) - (a.want?.number || 0));
  for (const {one} of wants) delete one.name;
  for (const {one, want} of wants) {
    if (!want || given.has(want.name) || (!want.own && taken.has(want.name))) continue;
    one.name = want.name;
    one.own = want.own;
    given.add(want.name);
    taken.add(want.name);
  }
  for (const {one} of wants) if (one.name === undefined) { one.name = make(one); one.own = false; taken.add(one.name); }
  for (const one of all) for (const rail of one.all) drawing.rails[rail][what] = {name: one.name, own: one.own};
}

// ---- detectors: a section is reported by the first with room, unless it was put elsewhere

function assignDetectors(read) {
  const {drawing, l} = read, put = new Set(), lists = new Map();
  for (const one of drawing.detectors) {
    lists.set(one, one.sections.filter(name => l.section.includes(name) && !put.has(name)));
    lists.get(one).forEach(name => put.add(name));
  }
  for (const name of l.section.filter(name => !put.has(name))) {
    const one = drawing.detectors.find(one => lists.get(one).length < LONGEST_DETECTOR) || addDetector(drawing, l);
    if (!lists.has(one)) lists.set(one, []);
    lists.get(one).push(name);
  }
  for (const [one, sections] of lists) if (sections.length) l.detector.push({name: one.name, id: one.id, sections});
}

function addDetector(drawing, l) {
  const one = {name: freeName("D", new Set([...namesOf(l), ...drawing.detectors.map(one => one.name)])), id: freeId(301, idsOf(drawing)), sections: []};
  drawing.detectors.push(one);
  return one;
}

// ---- what is wrong with names, identities and numbers

function judgeNames(read) {
  const {l} = read, named = ["track", "point", "signal", "detector"].flatMap(kind => l[kind].map(one => [kind, one.name]));
  const all = [["station", l.station.name], ...l.section.map(name => ["section", name]), ...named, ...l.border.map(name => ["border", name])];
  const seen = new Map();
  for (const [kind, name] of all) judgeName(read, seen, kind, name);
  const ids = new Map();
  for (const [kind, one] of [["station", l.station], ...["point", "signal", "detector"].flatMap(kind => l[kind].map(one => [kind, one]))]) judgeId(read, ids, kind, one);
  for (const [kind, most] of Object.entries(LIMITS)) if (l[kind]?.length > most) tooMany(read, kind, most);
  for (const {name, sections} of l.detector.filter(one => one.sections.length > LONGEST_DETECTOR)) {
    const text = `detector ${name} has ${sections.length} sections: at most ${LONGEST_DETECTOR} are possible`;
    read.fault(text, [read.placeOf("section", sections[LONGEST_DETECTOR])], {text: "put the rest elsewhere", does: "spread", name});
  }
}

// What two things have at once can't tell one of them: routes are derived where this doesn't happen.
function judgeName(read, seen, kind, name) {
  const places = placesOf(read, kind, name);
  const fix = to => ({text: "name it " + to, does: "name", kind, name, to});
  if (!isName(name)) {
    read.isUnnamed = true;
    read.fault(`the name "${name}" of a ${kind} isn't 1 to 20 of A to Z, a to z, 0 to 9 and -`, places, fix(freeOf(read, name)));
  } else if (seen.has(name)) {
    read.isUnnamed = true;
    read.fault(`the name ${name} is used twice: by a ${seen.get(name)} and a ${kind}`, places, fix(freeOf(read, name)));
  } else seen.set(name, kind);
}

// All places of things of a kind that have a name.
function placesOf(read, kind, name) {
  const {signals, borders, points} = read.drawing;
  if (kind === "signal") return signals.filter(one => one.name === name).map(one => one.at);
  if (kind === "border") return Object.keys(borders).filter(key => borders[key] === name);
  if (kind === "point") return Object.keys(points).filter(key => points[key].name === name && !points[key].gone);
  return [read.placeOf(kind, name)];
}

// A name like one that can't be had.
function freeOf(read, name) {
  const taken = new Set(namesOf(read.l)), clean = name.replace(/[^A-Za-z0-9-]+/g, "-").slice(0, 17) || "X";
  return isName(clean) && !taken.has(clean) ? clean : freeName(clean + "-", taken);
}

function judgeId(read, ids, kind, one) {
  const fix = {text: "give it a free one", does: "id", kind, name: one.name}, at = [read.placeOf(kind, one.name)];
  if (!Number.isInteger(one.id) || one.id < 1 || one.id > 4294967295) read.fault(`the id of ${kind} ${one.name} isn't 1 to 4294967295`, at, fix);
  else if (ids.has(one.id)) read.fault(`the id ${one.id} is used twice: by ${ids.get(one.id)} and ${one.name}`, at, fix);
  else ids.set(one.id, one.name);
}

function tooMany(read, kind, most) {
  const one = read.l[kind][most];
  read.fault(`${read.l[kind].length} ${kind}s: at most ${most} are possible`, [read.placeOf(kind, one.name ?? one)]);
}

// ---- renaming

// A list stays in its order when one of its things is named anew.
function renameInOrder(all, old, name) {
  all.order = all.order.map(it => it === old ? name : it);
}

// What is kept of routes names signals, borders and points.
function renameInRoutes(all, old, name) {
  renameInOrder(all, old, name);
  const pattern = new RegExp("(^|[| ])" + old.replace(/[^A-Za-z0-9]/g, "\\$&") + "(?=[|: ]|$)", "g"), renamed = key => key.replace(pattern, (_, head) => head + name);
  all.without = all.without.map(renamed);
  all.extra = all.extra.map(pair => pair.map(renamed));
  all.asides = Object.fromEntries(Object.entries(all.asides).map(([key, one]) => [renamed(key), one]));
}

function renameSection(all, runs, old, name) {
  renameInOrder(all, old, name);
  for (const run of runs) for (const rail of run.rails) all.rails[rail].section = {name, own: true};
  for (const one of all.detectors) one.sections = one.sections.map(it => it === old ? name : it);
  for (const one of Object.values(all.asides)) if (one.approach) one.approach = one.approach.map(it => it === old ? name : it);
  all.scattered = all.scattered.map(it => it === old ? name : it);
}

function renamePoint(all, key, name) {
  const old = all.points[key].name;
  Object.assign(all.points[key], {name, own: true});
  for (const side of ["left", "right"]) if (old + " " + side in all.slow) { all.slow[name + " " + side] = all.slow[old + " " + side]; delete all.slow[old + " " + side]; }
}

"##] $($later)*)
    };
}

pub(crate) use names;
