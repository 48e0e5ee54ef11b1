//! The layout that is read off a drawing.

/// Runs of rail become tracks, or join points; joints part elements and sections.
macro_rules! reading {
    ([$($before:literal)*] $next:ident $($later:ident)*) => {
        $next!([$($before)* r##"// ---- the layout that is read off a drawing

class Union {
  constructor() {
    this.up = new Map();
  }

  find(one) {
    while (this.up.has(one)) one = this.up.get(one);
    return one;
  }

  join(one, other) {
    const [a, b] = [this.find(one), this.find(other)];
    if (a !== b) this.up.set(b, a);
  }
}

// What was read: `l` has the keys of a layout file, `where` the place of each thing, `faults` what keeps it from being a layout.
// Reading changes a drawing in one thing: what has no name, identity or detector is given one.
class Reading {
  constructor(drawing) {
    this.drawing = drawing;
    this.faults = [];
    this.kinds = new Map();
    this.runs = [];
    this.runOf = new Map();
    this.l = {station: drawing.station, section: [], border: [], joint: [], track: [], point: [], signal: [], detector: []};
    this.where = {section: new Map(), track: new Map(), point: new Map(), border: new Map(), signal: new Map(), port: new Map()};
    this.lookAtPlaces();
    this.followRuns();
    this.gatherSections();
    nameAll(this);
    this.listElements();
    this.listJoints();
    this.listSignals();
    assignDetectors(this);
    this.keepOrder();
    this.lines = this.linesOf();
    judgeNames(this);
  }

  fault(text, at, fix) {
    this.faults.push({text, at: at.filter(Boolean), fix});
  }

  isPoint(key) {
    return this.kinds.get(key)?.kind === "point";
  }

  // ---- places and runs

  lookAtPlaces() {
    const {drawing, kinds} = this;
    for (const rail of Object.keys(drawing.rails)) for (const key of railEnds(rail)) if (!kinds.has(key)) kinds.set(key, kindAt(drawing, key));
    for (const key of Object.keys(drawing.borders)) if (!kinds.has(key)) kinds.set(key, kindAt(drawing, key));
    for (const [key, {kind, why}] of kinds) if (kind === "bad") this.fault(why, [key]);
    for (const key of Object.keys(drawing.points)) drawing.points[key].gone = !this.isPoint(key);
    for (const [key, name] of Object.entries(drawing.borders)) {
      if (!["border", "lonely"].includes(kinds.get(key).kind)) this.fault("border " + name + " isn't at an end of a rail", [key], {text: "take it away", does: "unborder", key});
    }
    for (const key of Object.keys(drawing.marks)) this.lookAtMark(key);
  }

  lookAtMark(key) {
    const kind = this.kinds.get(key)?.kind;
    if (kind === undefined) delete this.drawing.marks[key];
    const where = {point: "a point", end: "an end", border: "an end"}[kind];
    if (where) this.fault("a joint stands at " + where + ": move it along the rail", [key], {text: "take it away", does: "unmark", key});
  }

  // Runs of rail, each from one stop to the next, and from west to east.
  followRuns() {
    this.stops = [...this.kinds.keys()].filter(key => this.kinds.get(key).kind !== "rail").sort(byPlace);
    for (const key of this.stops) for (const way of this.kinds.get(key).ways) {
      if (!this.runOf.has(railKey(key, way))) this.takeRun(this.follow(key, way));
    }
    const ring = Object.keys(this.drawing.rails).find(rail => !this.runOf.has(rail));
    if (ring) this.fault("a ring of rail without a point has to have a joint", [railEnds(ring)[0]], {text: "put one", does: "mark", key: railEnds(ring)[0]});
  }

  follow(key, way) {
    const run = {from: key, fromWay: way, rails: [], places: [key]};
    let at = key, on = way;
    do {
      run.rails.push(railKey(at, on));
      at = step(at, on);
      run.places.push(at);
      const {kind, ways} = this.kinds.get(at);
      if (kind !== "rail") break;
      on = ways.find(other => other !== turned(on));
    } while (at !== key);
    return {...run, to: at, toWay: turned(on)};
  }

  takeRun(run) {
    const isTurned = byPlace(run.to, run.from) < 0 || run.to === run.from && run.toWay < run.fromWay;
    const one = isTurned ? this.follow(run.to, run.toWay) : run;
    one.id = "run " + this.runs.length;
    one.isTrack = !this.isPoint(one.from) && !this.isPoint(one.to);
    this.runs.push(one);
    for (const rail of one.rails) this.runOf.set(rail, one);
  }

  // What hangs together without a joint that divides is one section.
  gatherSections() {
    const union = new Union(), groups = new Map();
    for (const run of this.runs) for (const key of [run.from, run.to]) if (this.isPoint(key)) union.join("point " + key, run.id);
    for (const [key, mark] of Object.entries(this.drawing.marks)) {
      const of = this.kinds.get(key);
      if (of.kind === "mark" && !mark.divides) union.join(...of.ways.map(way => this.runOf.get(railKey(key, way)).id));
    }
    const groupOf = id => { const root = union.find(id); if (!groups.has(root)) groups.set(root, {runs: [], points: []}); return groups.get(root); };
    for (const run of this.runs) groupOf(run.id).runs.push(run);
    for (const key of this.stops) if (this.isPoint(key)) groupOf("point " + key).points.push(key);
    this.groups = [...groups.values()];
  }

  // ---- the lists of the layout

  listElements() {
    const {l, where, drawing} = this, sectionOf = new Map();
    for (const group of this.groups) {
      for (const run of group.runs) sectionOf.set(run.id, group.name);
      for (const key of group.points) sectionOf.set(key, group.name);
      l.section.push(group.name);
      where.section.set(group.name, group);
    }
    for (const run of this.runs.filter(run => run.isTrack)) {
      l.track.push({name: run.name, section: sectionOf.get(run.id)});
      where.track.set(run.name, run);
    }
    for (const key of this.stops.filter(key => this.isPoint(key)).sort((one, other) => drawing.points[one].id - drawing.points[other].id)) {
      const {name, id} = drawing.points[key];
      l.point.push({name, id, section: sectionOf.get(key), slow: this.slowOf(key)});
      where.point.set(name, key);
    }
    for (const key of this.stops.filter(key => ["border", "lonely"].includes(this.kinds.get(key).kind))) {
      l.border.push(drawing.borders[key]);
      where.border.set(drawing.borders[key], key);
    }
  }

  // The legs that are passed slowly: the curved ones, unless it was said otherwise.
  slowOf(key) {
    const of = this.kinds.get(key), {name} = this.drawing.points[key];
    const isSlow = side => this.drawing.slow[name + " " + side] ?? of[side] !== turned(of.tip);
    return isSlow("left") ? isSlow("right") ? "both" : "left" : isSlow("right") ? "right" : "";
  }

  isReversed(run) {
    return this.drawing.reversed.includes(run.name);
  }

  portOfPoint(key, way) {
    const of = this.kinds.get(key);
    return this.drawing.points[key].name + "." + (way === of.tip ? "tip" : way === of.left ? "left" : "right");
  }

  // The port that lies at one end of a run, as it is seen from there. A run at a point is no element: it is the point's port.
  portAt(run, isFrom) {
    if (run.isTrack) return run.name + (isFrom !== this.isReversed(run) ? ".a" : ".b");
    const [near, nearWay, far, farWay] = isFrom ? [run.from, run.fromWay, run.to, run.toWay] : [run.to, run.toWay, run.from, run.fromWay];
    return this.isPoint(far) ? this.portOfPoint(far, farWay) : this.portOfPoint(near, nearWay);
  }

  seenFrom(key, way) {
    const run = this.runOf.get(railKey(key, way));
    return this.portAt(run, run.from === key && run.fromWay === way);
  }

  listJoints() {
    for (const key of this.stops) this.joinAt(key, this.kinds.get(key));
    for (const run of this.runs) {
      if (this.isPoint(run.from) && this.isPoint(run.to)) this.join(this.portOfPoint(run.from, run.fromWay), this.portOfPoint(run.to, run.toWay), run.places[run.places.length >> 1]);
    }
  }

  joinAt(key, {kind, ways}) {
    if (kind === "mark") this.join(this.seenFrom(key, ways[0]), this.seenFrom(key, ways[1]), key);
    if (kind === "border") this.join(this.drawing.borders[key] + ".end", this.seenFrom(key, ways[0]), key);
    if (kind === "end") this.where.port.set(this.seenFrom(key, ways[0]), key);
    if (kind === "lonely") this.where.port.set(this.drawing.borders[key] + ".end", key);
  }

  join(one, other, key) {
    this.l.joint.push([one, other]);
    this.where.port.set(one, key);
    this.where.port.set(other, key);
  }

  listSignals() {
    for (const one of this.drawing.signals) {
      const port = this.portBefore(one);
      if (port) {
        this.l.signal.push({name: one.name, id: one.id, at: port});
        this.where.signal.set(one.name, one);
        continue;
      }
      const isOnRail = this.kinds.get(one.at)?.kind === "rail", joint = {text: "put a joint", does: "mark", key: one.at}, away = {text: "take it away", does: "unsignal", name: one.name};
      this.fault("signal " + one.name + " stands at no joint", [one.at], isOnRail ? joint : away);
    }
  }

  // The port by which a train leaves before it passes a signal.
  portBefore({at, toward}) {
    const {kind, ways} = this.kinds.get(at) || {};
    if (kind === "mark" && ways.includes(toward)) return this.seenFrom(at, ways.find(way => way !== toward));
    if ((kind === "border" && ways[0] === toward) || kind === "lonely") return this.drawing.borders[at] + ".end";
    return (kind === "border" || kind === "end") && toward === turned(ways[0]) ? this.seenFrom(at, ways[0]) : null;
  }

  // Lists stay in the order of the file that was opened; what is new comes after.
  keepOrder() {
    const place = new Map(this.drawing.order.map((name, at) => [name, at])), last = this.drawing.order.length;
    const sort = (list, nameOf) => list.sort((one, other) => (place.get(nameOf(one)) ?? last) - (place.get(nameOf(other)) ?? last));
    for (const key of ["section", "border"]) sort(this.l[key], one => one);
    for (const key of ["track", "point", "signal", "detector"]) sort(this.l[key], one => one.name);
  }

  // ---- where the elements lie: the ends and bends of each track and of each rail of a point

  linesOf() {
    const lines = {};
    for (const run of this.runs) {
      if (run.isTrack) lines[run.name] = bendsOf(this.isReversed(run) ? [...run.places].reverse() : run.places);
      else {
        if (this.isPoint(run.from)) lines[this.portAt(run, false)] = bendsOf(run.places);
        if (this.isPoint(run.to)) lines[this.portAt(run, true)] = bendsOf([...run.places].reverse());
      }
    }
    for (const [key, of] of this.kinds) if (of.kind === "lonely") lines[this.drawing.borders[key]] = spot(key);
    return lines;
  }

  // A place at which something can be shown.
  placeOf(kind, name) {
    const {section, track, point, border, signal} = this.where, middle = run => run?.places[run.places.length >> 1];
    if (kind === "section") return middle([...section.get(name)?.runs || []].sort((one, other) => other.rails.length - one.rails.length)[0]);
    if (kind === "track") return middle(track.get(name));
    if (kind === "detector") return this.placeOf("section", this.l.detector.find(one => one.name === name)?.sections.at(-1));
    return {point: point.get(name), border: border.get(name), signal: signal.get(name)?.at}[kind];
  }
}

function bendsOf(places) {
  const isBent = at => at === 0 || at === places.length - 1 || wayFrom(places[at - 1], places[at]) !== wayFrom(places[at], places[at + 1]);
  return places.filter((_, at) => isBent(at)).flatMap(spot);
}

"##] $($later)*)
    };
}

pub(crate) use reading;
