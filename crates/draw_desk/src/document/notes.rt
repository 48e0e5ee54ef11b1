//! What is to be told of a drawing.

/// Routes with what was chosen of them, faults and notes, and the station that is asked.
macro_rules! notes {
    ([$($before:literal)*] $next:ident $($later:ident)*) => {
        $next!([$($before)* r##"// ---- routes, and what was chosen of them

// What was chosen by hand goes before what is derived.
function chooseFor(one) {
  const {name, aspect, approach} = one;
  one.key = signature(one);
  one.isOut = drawing.without.includes(one.key);
  one.derived = {name, aspect, approach};
  Object.assign(one, drawing.asides[one.key]);
  one.approach = one.approach.filter(name => table.site.order.has(name));
}

function conflictsOf(one) {
  const keys = drawing.extra.filter(pair => pair.includes(one.key)).map(pair => pair.find(key => key !== one.key));
  return table.kept.filter(it => keys.includes(it.key)).map(it => it.name);
}

function judgeRoutes() {
  const names = new Set(namesOf(read.l)), at = one => [read.placeOf("signal", one.entry)];
  const fault = (one, text, fix) => read.faults.push({text, at: at(one), way: one, fix});
  for (const one of table.kept) {
    const fix = {text: "as derived", does: "routeName", key: one.key};
    if (!isName(one.name)) fault(one, `the name "${one.name}" of a route isn't 1 to 20 of A to Z, a to z, 0 to 9 and -`, fix);
    else if (names.has(one.name)) fault(one, `the name ${one.name} is used twice: the later one by the route from ${one.entry} to ${one.exit}`, fix);
    names.add(one.name);
    const number = judge(table.site, one, table.kept);
    if (number) fault(one, `table fault ${number} ${TABLE_FAULTS[number]} at route ${one.name}`);
  }
  if (table.isCut) read.faults.push({text: "more ways than this page looks through: signals between them would part them", at: []});
  else if (table.kept.length > LIMITS.route) fault(table.kept[LIMITS.route], `${table.kept.length} routes: at most ${LIMITS.route} are possible. Leave some out`);
}

// ---- notes: what an engineer wants to know, though it is no fault

function notesOf() {
  const {signal, border} = read.l, starts = new Set(table.routes.map(one => one.entry)), ends = new Set(table.routes.map(one => one.exit));
  const notes = [...told.map(text => ({text, at: []})), ...openLegs(), ...contradictions()];
  if (read.isUnnamed) return notes;
  for (const one of signal.filter(one => !starts.has(one.name))) notes.push({text: `no route begins at ${one.name}` + whyNone(one.name), at: [read.placeOf("signal", one.name)]});
  for (const name of border.filter(name => !ends.has(name))) notes.push({text: `no route leads to border ${name}`, at: [read.placeOf("border", name)]});
  approachNotes(notes);
  for (const name of drawing.scattered.filter(name => read.where.section.has(name))) {
    notes.push({text: `section ${name} has parts that don't hang together`, at: [read.placeOf("section", name)], fix: {text: "part them", does: "part", name}});
  }
  return notes;
}

// A list that was written by hand is told by itself; those of the shorter rule together.
function approachNotes(notes) {
  const lacksOf = one => comingTo(table.site, table.site.portOf.get(one.entry)).filter(name => !one.approach.includes(name)), at = one => [read.placeOf("signal", one.entry)];
  const lacking = table.kept.map(one => ({one, lacks: lacksOf(one)})).filter(({lacks}) => lacks.length), isOwn = ({one}) => drawing.asides[one.key]?.approach !== undefined;
  const sentence = ({one, lacks}) => `approach of ${one.name} lacks ${lacks.join(", ")}`;
  for (const one of table.kept.filter(one => !one.approach.length)) notes.push({text: `${one.name} has no approach sections: once cancelled it is held for 120 s`, at: at(one), way: one});
  for (const it of lacking.filter(it => isOwn(it) && it.one.approach.length)) {
    notes.push({text: sentence(it), at: at(it.one), way: it.one, fix: {text: "as derived", does: "routeApproach", key: it.one.key}});
  }
  const derived = lacking.filter(it => !isOwn(it)), more = derived.length > 1 ? `; so do ${derived.length - 1} more` : "";
  if (derived.length) notes.push({text: sentence(derived[0]) + more + ": their lists end at a point", at: [], way: derived[0].one, fix: {text: "to a signal", does: "rule"}});
}

function whyNone(name) {
  const why = table.stuck.filter(one => one.entry === name).map(one => one.why), isImpossible = table.impossible.some(one => one.entry === name);
  return why.length || isImpossible ? ": " + [...new Set(isImpossible ? [...why, "what leads on is impossible"] : why)].join("; ") : "";
}

// An open leg is told once, with all that it prevents.
function openLegs() {
  const open = new Map();
  for (const way of table.impossible) for (const one of way.causes.filter(one => one.kind === "open")) {
    if (!open.has(one.leg)) open.set(one.leg, {...one, ways: []});
    open.get(one.leg).ways.push(way);
  }
  return [...open.values()].map(one => {
    const pairs = [...new Set(one.ways.map(way => way.entry + " to " + way.exit))], more = pairs.length - 3;
    const prevents = pairs.slice(0, 3).join(", ") + (more > 0 ? " and " + more + " more" : "");
    const text = `no route leads over ${elementOf(one.leg)} ${OTHER[endOf(one.leg)]}: ${whyImpossible(one)}. It prevents ${prevents}`;
    return {text, at: [read.where.port.get(one.far)].filter(Boolean), way: one.ways[0], fix: signalFix(one.far)};
  });
}

const whyImpossible = one => one.kind === "open"
  ? `${one.leg} is open, no signal stands at ${one.far}, to which it is joined`
  : `${one.point} is required ${one.side} by ${one.by} and ${OTHER[one.side]} by ${one.other}`;

function contradictions() {
  const pairs = new Map(), has = (entry, exit) => table.routes.some(one => one.entry === entry && one.exit === exit);
  for (const way of table.impossible) {
    const both = way.causes.find(one => one.kind === "both"), pair = way.entry + " to " + way.exit;
    if (both && way.causes.every(one => one.kind === "both") && !has(way.entry, way.exit) && !pairs.has(pair)) pairs.set(pair, {way, both});
  }
  const at = point => [read.where.point.get(point)].filter(Boolean);
  return [...pairs].map(([pair, {way, both}]) => ({text: `no route from ${pair}: ${whyImpossible(both)}. A signal between would part the ways`, at: at(both.point), way}));
}

// A signal at a port: where a joint, an end or a border is drawn there, it can be put by a click.
function signalFix(port) {
  const key = read.where.port.get(port), of = read.kinds.get(key);
  if (!of) return null;
  for (const toward of [...of.ways, ...of.ways.map(turned)]) if (read.portBefore({at: key, toward}) === port) return {text: "put a signal", does: "signal", key, toward};
  return null;
}

// ---- the station that serves the page, where one does: its check is the proved one

let station = null, answer = null, asking = null, isAsking = false;

// What the station says of the text that is drawn now; nothing as long as it wasn't asked.
const verdict = () => answer && answer.text === read.text ? answer : null;

function ask(path, body, more = {}) {
  return fetch(path, {method: "POST", body, headers: {"X-Token": station.token, "Content-Type": "text/plain", ...more}, signal: AbortSignal.timeout(10000)});
}

function askStation() {
  clearTimeout(asking);
  if (station) asking = setTimeout(check, 250);
}

// One text at a time: a station that is slow isn't asked about those between.
async function check() {
  if (isAsking) return;
  const text = read.text;
  isAsking = true;
  try {
    const said = await ask("/check", text);
    if (!said.ok) throw new Error(await said.text());
    answer = {text, ...await said.json()};
    station.isGone = "";
    showRunning(answer.running);
  } catch (fault) {
    // a fault of the network has other words in each browser
    station.isGone = fault.name === "Error" ? fault.message : "the station doesn't answer";
    clearTimeout(asking);
    asking = setTimeout(check, 3000);
  }
  isAsking = false;
  if (!station.isGone && text !== read.text) askStation();
  paintWord();
  paintFaults();
  repaintLit();
}

// Where a fault lies that the station tells: it names a key with the place of an entry, or a route.
function placeOfFault(line) {
  const [, key, number] = line.match(/^layout fault \d+ \w+ at (\w+) (\d+)/) || [], [, name] = line.match(/^table fault \d+ \w+ at route (\S+)/) || [];
  const route = key === "route" ? table.kept[number - 1] : table.kept.find(it => it.name === name);
  if (route) return {at: [read.placeOf("signal", route.entry)].filter(Boolean), way: route};
  const entry = read.l[key]?.[number - 1];
  if (!entry) return {at: []};
  return {at: [key === "joint" ? read.where.port.get(entry[0]) : read.placeOf(key, entry.name ?? entry)].filter(Boolean)};
}

// What the station tells beyond the notes of the page, by what its lines begin with.
function notesBeyond() {
  const said = verdict();
  if (!said || said.status !== 0) return [];
  const head = line => line.match(/^(left out [^\s:]+|impossible \S+ to [^\s:]+|no route from [^\s:]+|no route to border \S+|approach of \S+)/)?.[1];
  const starts = new Set(table.routes.map(one => one.entry)), ends = new Set(table.routes.map(one => one.exit));
  const known = new Set([...table.routes.filter(one => one.isOut).map(one => "left out " + one.name), ...table.impossible.map(one => `impossible ${one.entry} to ${one.exit}`),
    ...read.l.signal.filter(one => !starts.has(one.name)).map(one => "no route from " + one.name), ...read.l.border.filter(name => !ends.has(name)).map(name => "no route to border " + name),
    ...table.kept.map(one => "approach of " + one.name)]);
  return said.out.split("\n").filter(line => head(line) && !known.has(head(line))).map(line => ({text: "station: " + line, at: []}));
}

// The faults that the page found, or else that which the station tells.
function faultsNow() {
  const said = verdict();
  if (read.faults.length || !said || said.status === 0) return read.faults;
  return [{text: said.err.trim().replace(/\n/g, ": "), ...placeOfFault(said.err)}];
}

"##] $($later)*)
    };
}

pub(crate) use notes;
