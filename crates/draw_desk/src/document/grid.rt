//! What is drawn: rails between neighbouring places of a grid.

/// Places, ways and rails, and what stands at a place.
macro_rules! grid {
    ([$($before:literal)*] $next:ident $($later:ident)*) => {
        $next!([$($before)* r##"// ---- the grid. A place is a text as "3,4"; a way is one of eight directions, clockwise from the east

const STEPS = [[1, 0], [1, 1], [0, 1], [-1, 1], [-1, 0], [-1, -1], [0, -1], [1, -1]];
const place = (x, y) => x + "," + y;
const spot = key => key.split(",").map(Number);
const turned = way => (way + 4) % 8;
const step = (key, way) => { const [x, y] = spot(key); return place(x + STEPS[way][0], y + STEPS[way][1]); };
// A rail has the key of that of its ends from which it goes east, south-east, south or south-west.
const railKey = (key, way) => way < 4 ? key + "," + way : step(key, way) + "," + turned(way);
const railEnds = rail => { const [x, y, way] = spot(rail); return [place(x, y), step(place(x, y), way)]; };
const byPlace = (one, other) => { const [a, b] = [spot(one), spot(other)]; return a[0] - b[0] || a[1] - b[1]; };
const wayFrom = (one, other) => { const [[x, y], [u, v]] = [spot(one), spot(other)]; return STEPS.findIndex(([dx, dy]) => dx === u - x && dy === v - y); };
// No train goes round a bend of 90 degrees or more.
const isBend = (one, other) => [3, 4, 5].includes((other - one + 8) % 8);

function newDrawing() {
  return {
    station: {name: "STATION", id: 1, key: ""},
    rails: {},     // rail -> {track, section}: what it is part of, each {name, own}; own names were given by hand
    marks: {},     // place -> {divides}: a joint, and whether sections end there
    signals: [],   // {name, id, at: place, toward: way}
    borders: {},   // place -> name
    points: {},    // place -> {name, id, own}
    detectors: [], // {name, id, sections}
    scattered: [], // sections of parts that don't hang together
    reversed: [],  // tracks whose port `a` isn't the western, or northern, one
    slow: {},      // "point side" -> whether, where it isn't as the drawing shows
    rule: "signal",// by which approach sections are found
    without: [],   // routes that are left out
    asides: {},    // route -> {name, aspect, approach}, where they aren't as derived
    extra: [],     // pairs of routes that are never to be set together
    order: [],     // names, in the order of the file that was opened
  };
}

const waysAt = (drawing, key) => STEPS.map((_, way) => way).filter(way => railKey(key, way) in drawing.rails);

// The tip of three rails that meet: the one that lies opposite to both others, each at most 45 degrees aside.
const tipOf = ways => ways.find(tip => ways.every(way => way === tip || isBend(tip, way)));

// The sides of the legs as seen from the tip: what lies clockwise of the other is right.
function legsOf(ways, tip) {
  const [one, other] = ways.filter(way => way !== tip), isRight = (one - tip + 8) % 8 > (other - tip + 8) % 8;
  return isRight ? {left: other, right: one} : {left: one, right: other};
}

const FORMS = {
  bend: "the rail bends by 90 degrees or more: no train runs there",
  three: "three rails meet, and none lies opposite to both others: no point has this form",
  many: "more than three rails meet: crossings aren't built. Let rails cross between the places of the grid, or set points apart",
};

// What stands at a place: nothing, an end, a border, a plain rail, a joint, a point, or what can't be.
function kindAt(drawing, key) {
  const ways = waysAt(drawing, key);
  if (ways.length === 0) return {kind: key in drawing.borders ? "lonely" : "none", ways};
  if (ways.length === 1) return {kind: key in drawing.borders ? "border" : "end", ways};
  if (ways.length === 2) return isBend(...ways) ? {kind: key in drawing.marks ? "mark" : "rail", ways} : {kind: "bad", ways, why: FORMS.bend};
  if (ways.length > 3) return {kind: "bad", ways, why: FORMS.many};
  const tip = tipOf(ways);
  return tip === undefined ? {kind: "bad", ways, why: FORMS.three} : {kind: "point", ways, tip, ...legsOf(ways, tip)};
}

// ---- laying rails

// The places from one to another: along a line, or by a slope and a level piece. Late has the slope at the end.
function pathBetween(from, to, isLate) {
  const [x, y] = spot(from), [u, v] = spot(to), dx = Math.sign(u - x), dy = Math.sign(v - y);
  const slope = Math.min(Math.abs(u - x), Math.abs(v - y)), level = Math.max(Math.abs(u - x), Math.abs(v - y)) - slope;
  const straight = Math.abs(u - x) > Math.abs(v - y) ? [dx, 0] : [0, dy];
  const pieces = isLate ? [[straight, level], [[dx, dy], slope]] : [[[dx, dy], slope], [straight, level]];
  const places = [from];
  let [a, b] = [x, y];
  for (const [[p, q], count] of pieces) for (let at = 0; at < count; at++) { a += p; b += q; places.push(place(a, b)); }
  return places;
}

function addPlaces(drawing, places) {
  for (let at = 1; at < places.length; at++) drawing.rails[railKey(places[at - 1], wayFrom(places[at - 1], places[at]))] ??= {};
}

// At how many places rails would meet as they can't.
function harm(drawing, places) {
  const tried = {...drawing, rails: {...drawing.rails}};
  addPlaces(tried, places);
  return places.filter(key => kindAt(tried, key).kind === "bad").length;
}

// The bend that harms less; where both are as good, the slope lies where rail is already.
function bestPath(drawing, from, to, isOther) {
  const [early, late] = [pathBetween(from, to, false), pathBetween(from, to, true)];
  const [one, other] = [harm(drawing, early), harm(drawing, late)];
  const isLate = one !== other ? other < one : waysAt(drawing, from).length === 0 && waysAt(drawing, to).length > 0;
  return isLate !== isOther ? late : early;
}

// Takes a rail away, and what stood at its ends alone.
function takeRail(drawing, rail) {
  delete drawing.rails[rail];
  for (const key of railEnds(rail)) {
    if (waysAt(drawing, key).length > 0) continue;
    drawing.signals = drawing.signals.filter(one => one.at !== key);
    delete drawing.marks[key];
    delete drawing.borders[key];
  }
}

// ---- room: all from a column on goes one to the right. A rail that crosses is made longer, level where it can be

function widen(drawing, column) {
  const moved = key => { const [x, y] = spot(key); return place(x >= column ? x + 1 : x, y); };
  const rails = {}, crossing = [];
  for (const [rail, value] of Object.entries(drawing.rails)) {
    const [one, other] = railEnds(rail), [[x, y], [u, v]] = [spot(one), spot(other)];
    if ((x < column) === (u < column)) rails[railKey(moved(one), wayFrom(one, other))] = value;
    else crossing.push(x < u ? {left: [x, y], right: [u, v], value} : {left: [u, v], right: [x, y], value});
  }
  for (const one of crossing) lengthen(rails, crossing, one);
  drawing.rails = rails;
  for (const what of ["marks", "borders", "points"]) drawing[what] = Object.fromEntries(Object.entries(drawing[what]).map(([key, value]) => [moved(key), value]));
  for (const one of drawing.signals) one.at = moved(one.at);
}

// The level piece comes after the slope, unless rail lies there already.
function lengthen(rails, crossing, {left: [x, y], right: [u, v], value}) {
  const before = place(x, y), after = place(u, v), end = place(u + 1, v);
  const isFree = !(railKey(after, 0) in rails) && !crossing.some(one => one.left[0] === x && one.left[1] === v && one.right[1] === v);
  if (y === v || isFree) {
    rails[railKey(before, wayFrom(before, after))] = value;
    rails[railKey(after, 0)] = {...value};
  } else {
    rails[railKey(before, 0)] = value;
    rails[railKey(place(x + 1, y), wayFrom(place(x + 1, y), end))] = {...value};
  }
}

"##] $($later)*)
    };
}

pub(crate) use grid;
