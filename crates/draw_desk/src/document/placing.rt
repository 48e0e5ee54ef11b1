//! Places for the rails of a layout that has none.

/// Elements lie on rows, from west to east; what joins rows is led over free places of the grid.
macro_rules! placing {
    ([$($before:literal)*] $next:ident $($later:ident)*) => {
        $next!([$($before)* r##"// ---- places for a layout that has none: rows of what goes on straight, columns from west to east, and slopes between rows

// The first of some ways to place a layout that gives this very layout.
function placed(l) {
  for (const [gap, room] of [[3, 0], [2, 0], [4, 2], [5, 6]]) {
    const lines = new Placing(l, gap, room).lines();
    if (!lines) continue;
    const drawing = drawnBy(l, lines);
    if (isSame(new Reading(structuredClone(drawing)).l, l)) return {...drawing, isPlaced: true};
  }
  return null;
}

class Placing {
  constructor(l, gap, room) {
    this.l = l;
    this.gap = gap;
    this.room = room;
    this.site = siteOf(l);
    this.mate = new Map(this.site.joint);
    this.elements = [...l.track.map(one => one.name), ...l.point.map(one => one.name), ...l.border];
    this.kind = new Map(this.site.kind);
    this.turned = new Set();   // elements that lie with their first port to the east
    this.main = new Map();     // point -> the leg by which its row goes on
    this.odd = new Set();      // ports whose joints lead back: both ends look the same way
  }

  lines() {
    this.findDirections();
    this.chooseLegs();
    this.gatherStrands();
    this.addLoops();
    this.findRanks();
    this.layRows();
    this.layColumns();
    return this.layRails() ? this.linesOf() : null;
  }

  // ---- which way each element lies

  portsOf(name) {
    return {track: ["a", "b"], point: ["tip", "left", "right"], border: ["end"], loop: ["a", "b"]}[this.kind.get(name)].map(end => name + "." + end);
  }

  // The first port looks west, that of a border east, unless the element is turned.
  looksEast(port) {
    const isEast = !["a", "tip"].includes(endOf(port));
    return isEast !== this.turned.has(elementOf(port));
  }

  findDirections() {
    const seen = new Set();
    this.pieceOf = new Map();
    for (const first of this.elements) {
      if (seen.has(first)) continue;
      const piece = [first];
      seen.add(first);
      for (let at = 0; at < piece.length; at++) this.followDirections(piece, piece[at], seen);
      const tracks = piece.filter(name => this.kind.get(name) === "track");
      if (tracks.filter(name => this.turned.has(name)).length * 2 > tracks.length) for (const name of piece) this.turn(name);
      piece.forEach(name => this.pieceOf.set(name, first));
    }
    for (const [one, other] of this.l.joint) if (this.looksEast(one) === this.looksEast(other)) { this.odd.add(one); this.odd.add(other); }
  }

  turn(name) {
    if (!this.turned.delete(name)) this.turned.add(name);
  }

  followDirections(piece, name, seen) {
    for (const port of this.portsOf(name)) {
      const far = this.mate.get(port);
      if (!far || seen.has(elementOf(far))) continue;
      seen.add(elementOf(far));
      piece.push(elementOf(far));
      if (this.looksEast(far) === this.looksEast(port)) this.turn(elementOf(far));
    }
  }

  // ---- the leg by which a row goes on: the fast one; one that leads to no leg before one that does, and this before an open one; the longer way

  chooseLegs() {
    for (const one of this.l.point) {
      const [left, right] = ["left", "right"].map(side => this.worth(one, side));
      this.main.set(one.name, right > left ? "right" : "left");
    }
    // where two legs that are joined were chosen each by itself, the one at a time
    for (const one of this.l.point) {
      const far = this.mate.get(one.name + "." + this.main.get(one.name));
      if (!far || !(endOf(far) in OTHER) || this.kind.get(elementOf(far)) !== "point" || this.main.get(elementOf(far)) === endOf(far)) continue;
      const other = this.mate.get(one.name + "." + OTHER[this.main.get(one.name)]);
      if (other && endOf(other) in OTHER && this.main.get(elementOf(other)) === endOf(other)) this.main.set(one.name, OTHER[this.main.get(one.name)]);
    }
  }

  worth(point, side) {
    const leg = point.name + "." + side, far = this.mate.get(leg);
    const slow = point.slow === side || point.slow === "both" ? 1 : 0, fast = this.l.route.some(one => one.points[point.name] === side && (one.aspect || "proceed") === "proceed");
    const isToLeg = far && this.kind.get(elementOf(far)) === "point" && endOf(far) in OTHER;
    return (fast ? 4000 : 0) - (slow ? 2000 : 0) + (far ? 1000 : 0) - (isToLeg ? 500 : 0) + Math.min(400, this.reach(leg));
  }

  // How many elements lie beyond a port.
  reach(port) {
    const todo = [port], seen = new Set();
    while (todo.length) {
      const far = this.mate.get(todo.pop());
      if (!far || seen.has(elementOf(far))) continue;
      seen.add(elementOf(far));
      todo.push(...leaves(this.site, far));
    }
    return seen.size;
  }

  // ---- strands: what lies on one row

  isLevel(port) {
    return !(endOf(port) in OTHER) || this.main.get(elementOf(port)) === endOf(port);
  }

  levelPort(name, isEast) {
    return this.portsOf(name).find(port => this.isLevel(port) && this.looksEast(port) === isEast);
  }

  // What goes on along the row of an element.
  beside(name, isEast) {
    const port = this.levelPort(name, isEast), far = port && this.mate.get(port);
    return far && this.isLevel(far) && !this.odd.has(port) ? elementOf(far) : null;
  }

  gatherStrands() {
    this.strands = [];
    this.strandOf = new Map();
    for (const name of this.elements) {
      if (this.strandOf.has(name)) continue;
      let first = name;
      for (let west = this.beside(name, false); west && west !== name; west = this.beside(west, false)) first = west;
      const strand = {elements: [], row: null};
      for (let at = first; at && !this.strandOf.has(at); at = this.beside(at, true)) { strand.elements.push(at); this.strandOf.set(at, strand); }
      this.strands.push(strand);
    }
  }

  // Joints that aren't along a row.
  links() {
    const links = [];
    for (const [one, other] of this.mate) {
      const isAlong = this.isLevel(one) && this.isLevel(other) && !this.odd.has(one) && this.areNeighbours(elementOf(one), elementOf(other));
      if (one < other && !isAlong) links.push(this.looksEast(one) ? [one, other] : [other, one]);
    }
    return links;
  }

  areNeighbours(one, other) {
    const list = this.strandOf.get(one).elements;
    return list.includes(other) && Math.abs(list.indexOf(one) - list.indexOf(other)) === 1;
  }

  // A link within one strand, or whose ends look to the same side, goes by a row of its own.
  addLoops() {
    for (const [one, other] of this.links()) {
      if (this.odd.has(one)) continue;
      const isOwn = this.strandOf.get(elementOf(one)) === this.strandOf.get(elementOf(other));
      const isTwisted = !this.isLevel(one) && !this.isLevel(other) && this.isUp(one) === this.isUp(other);
      if (isOwn || isTwisted) this.addLoop(one, other);
    }
  }

  addLoop(one, other) {
    const name = "loop " + this.elements.length, strand = {elements: [name], row: null};
    this.kind.set(name, "loop");
    this.pieceOf.set(name, this.pieceOf.get(elementOf(one)));
    this.elements.push(name);
    this.strands.push(strand);
    this.strandOf.set(name, strand);
    for (const [port, far] of [[name + ".a", one], [name + ".b", other]]) { this.mate.set(port, far); this.mate.set(far, port); }
  }

  // Whether a leg leads up from the row of its point.
  isUp(leg) {
    return (endOf(leg) === "left") !== this.turned.has(elementOf(leg));
  }

  // ---- ranks: how many elements lie west of one, at most

  findRanks() {
    this.rank = new Map();
    const open = new Set(), visit = name => {
      if (this.rank.has(name)) return this.rank.get(name);
      open.add(name);
      let rank = 0;
      for (const port of this.portsOf(name).filter(port => !this.looksEast(port) && !this.odd.has(port))) {
        const far = this.mate.get(port);
        if (!far) continue;
        if (open.has(elementOf(far))) { this.odd.add(port); this.odd.add(far); }
        else rank = Math.max(rank, visit(elementOf(far)) + 1);
      }
      open.delete(name);
      this.rank.set(name, rank);
      return rank;
    };
    this.elements.forEach(visit);
    this.linked = this.links();
    for (const one of this.strands) this.span(one);
  }

  span(strand) {
    const ranks = strand.elements.map(name => this.rank.get(name));
    for (const [one, other] of this.linked) {
      const [a, b] = [elementOf(one), elementOf(other)];
      if (this.odd.has(one) || this.strandOf.get(a) === this.strandOf.get(b)) continue;
      if (this.strandOf.get(a) === strand && this.isLevel(one)) ranks.push(this.rank.get(b));
      if (this.strandOf.get(b) === strand && this.isLevel(other)) ranks.push(this.rank.get(a));
    }
    Object.assign(strand, {low: Math.min(...ranks), high: Math.max(...ranks), piece: this.pieceOf.get(strand.elements[0])});
  }

  // ---- rows: the longest strand first, then always the longest that hangs at what is placed, where it costs least

  layRows() {
    this.rows = [];
    const todo = new Set(this.strands);
    while (todo.size) {
      const hanging = [...todo].filter(one => this.hooks(one).length > 0), length = one => one.elements.length + (one.high - one.low) / 1000;
      const next = (hanging.length ? hanging : [...todo]).reduce((best, one) => length(one) > length(best) ? one : best);
      todo.delete(next);
      this.putRow(next);
    }
    this.rows.forEach((row, at) => row.forEach(one => { one.row = at; }));
  }

  // The links of a strand to those that are placed.
  hooks(strand) {
    const of = port => this.strandOf.get(elementOf(port));
    return this.linked.flatMap(([one, other]) => [[one, other], [other, one]]).filter(([own, far]) => of(own) === strand && of(far) !== strand && of(far).row !== null);
  }

  putRow(strand) {
    const spots = [];
    for (let at = 0; at <= this.rows.length; at++) {
      spots.push({at, isNew: true, cost: this.cost(strand, 2 * at) + 10});
      if (at < this.rows.length && this.isFree(strand, this.rows[at])) spots.push({at, isNew: false, cost: this.cost(strand, 2 * at + 1)});
    }
    const best = spots.reduce((one, other) => other.cost < one.cost ? other : one);
    if (best.isNew) this.rows.splice(best.at, 0, [strand]);
    else this.rows[best.at].push(strand);
    this.rows.forEach((row, at) => row.forEach(one => { one.row = at; }));
  }

  isFree(strand, row) {
    return row.every(one => one.piece === strand.piece && (one.high < strand.low || strand.high < one.low));
  }

  // Spots count half rows: an even one is a new row, an odd one a row that is there.
  cost(strand, spot) {
    const hooks = this.hooks(strand);
    let cost = hooks.length ? 0 : (2 * this.rows.length - spot) * 100;
    for (const [own, far] of hooks) {
      const there = 2 * this.strandOf.get(elementOf(far)).row + 1;
      if (there === spot) cost += 4000;
      if (!this.isLevel(far) && this.isUp(far) !== spot < there) cost += 1000;
      if (!this.isLevel(own) && this.isUp(own) !== there < spot) cost += 1000;
      cost += 4 * Math.abs(there - spot) + 100 * this.crossed(own, far, Math.min(spot, there), Math.max(spot, there));
    }
    return cost + 100 * this.linked.filter(([one, other]) => this.isCrossing(strand, spot, one, other)).length;
  }

  crossed(own, far, high, low) {
    const [from, to] = [this.rank.get(elementOf(own)), this.rank.get(elementOf(far))].sort((one, other) => one - other);
    return this.rows.flat().filter(one => high < 2 * one.row + 1 && 2 * one.row + 1 < low && one.low <= to && from <= one.high).length;
  }

  isCrossing(strand, spot, one, other) {
    const [a, b] = [one, other].map(port => this.strandOf.get(elementOf(port)));
    if (a.row === null || b.row === null || a === strand || b === strand) return false;
    const [high, low] = [2 * Math.min(a.row, b.row) + 1, 2 * Math.max(a.row, b.row) + 1];
    const [from, to] = [this.rank.get(elementOf(one)), this.rank.get(elementOf(other))].sort((one, other) => one - other);
    return high < spot && spot < low && strand.low <= to && from <= strand.high;
  }

  // ---- columns: as far west as can be, then drawn together where no track gets longer by it

  layColumns() {
    this.at = new Map();
    this.bonds = [];
    for (const name of this.elements) this.bondWithin(name);
    for (const [one, other] of this.mate) if (this.looksEast(one) && !this.odd.has(one)) this.bondAcross(one, other);
    for (const row of this.rows) {
      row.sort((one, other) => one.low - other.low);
      for (let at = 1; at < row.length; at++) this.bond(this.node(row[at - 1].elements.at(-1), true), this.node(row[at].elements[0], false), 4, 0);
    }
    for (const [node] of this.at) this.at.set(node, 0);
    this.pushEast();
    this.draw();
    this.alignEnds();
  }

  // The node of an element at one of its sides. A track has two; what lies at its end may share it.
  node(name, isEast) {
    const kind = this.kind.get(name);
    const node = kind === "track" || kind === "loop" ? name + (isEast ? " east" : " west") : name;
    if (!this.at.has(node)) this.at.set(node, 0);
    return node;
  }

  bond(from, to, least, weight) {
    this.bonds.push({from, to, least, weight});
  }

  bondWithin(name) {
    const kind = this.kind.get(name);
    if (kind === "track") this.bond(this.node(name, false), this.node(name, true), 3 + this.room + this.l.signal.filter(one => elementOf(one.at) === name).length, 0.2);
    else if (kind === "loop") this.bond(this.node(name, false), this.node(name, true), 1, 0.3);
    else this.node(name, true);
  }

  bondAcross(one, other) {
    const [from, to] = [this.node(elementOf(one), true), this.node(elementOf(other), false)], slope = this.slope(one, other);
    const isShared = !slope && ![one, other].some(port => ["point", "loop"].includes(this.kind.get(elementOf(port))));
    const isPlain = [one, other].some(port => this.kind.get(elementOf(port)) === "track");
    const least = isShared ? 0 : slope ? slope + (this.isLevel(one) || this.isLevel(other) ? 1 : 0) : isPlain ? 1 : 2;
    this.bond(from, to, least + (isShared ? 0 : this.room), isShared ? 50 : 1);
    if (isShared) this.bond(to, from, 0, 0);
  }

  slope(one, other) {
    return this.gap * Math.abs(this.strandOf.get(elementOf(one)).row - this.strandOf.get(elementOf(other)).row);
  }

  pushEast() {
    for (let round = 0; round < 2000; round++) {
      let isDone = true;
      for (const {from, to, least} of this.bonds) {
        if (this.at.get(to) >= this.at.get(from) + least) continue;
        this.at.set(to, this.at.get(from) + least);
        isDone = false;
      }
      if (isDone) return;
    }
  }

  // Moves what hangs together where that makes bonds shorter on the whole.
  draw() {
    const outOf = new Map(), into = new Map();
    for (const node of this.at.keys()) { outOf.set(node, []); into.set(node, []); }
    for (const bond of this.bonds) { outOf.get(bond.from).push(bond); into.get(bond.to).push(bond); }
    for (let round = 0, isMoved = true; round < 40 && isMoved; round++) {
      isMoved = false;
      for (const node of this.at.keys()) for (const way of [1, -1]) for (const isStiff of [false, true]) isMoved = this.move(node, way, isStiff, outOf, into) || isMoved;
    }
  }

  slack({from, to, least}) {
    return this.at.get(to) - this.at.get(from) - least;
  }

  move(node, way, isStiff, outOf, into) {
    const [ahead, behind] = way > 0 ? [outOf, into] : [into, outOf], far = bond => way > 0 ? bond.to : bond.from, near = bond => way > 0 ? bond.from : bond.to;
    const group = new Set([node]);
    for (const one of group) {
      for (const bond of ahead.get(one)) if (this.slack(bond) <= 0) group.add(far(bond));
      if (isStiff) for (const bond of behind.get(one)) if (bond.weight >= 1 && this.slack(bond) <= 0) group.add(near(bond));
    }
    let gain = 0, room = Infinity;
    for (const one of group) {
      for (const bond of ahead.get(one)) if (!group.has(far(bond))) { gain += bond.weight; room = Math.min(room, this.slack(bond)); }
      for (const bond of behind.get(one)) if (!group.has(near(bond))) gain -= bond.weight;
    }
    if (gain <= 1e-9 || room === Infinity) return false;
    for (const one of group) this.at.set(one, this.at.get(one) + way * room);
    return true;
  }

  // Lines end at one column, where nothing lies beyond them.
  alignEnds() {
    const all = [...this.at.values()], most = Math.max(...all), least = Math.min(...all);
    for (const row of this.rows) for (const [strand, isEast] of [[row[0], false], [row.at(-1), true]]) {
      const name = isEast ? strand.elements.at(-1) : strand.elements[0], track = isEast ? strand.elements.at(-2) : strand.elements[1];
      if (this.kind.get(name) !== "border" || this.kind.get(track) !== "track") continue;
      const reach = isEast ? most - this.at.get(name) : this.at.get(name) - least;
      if (reach > 12) continue;
      this.at.set(name, isEast ? most : least);
      this.at.set(this.node(track, isEast), isEast ? most : least);
    }
  }

  // ---- rails

  // What finds no way is laid first when all is laid again.
  layRails() {
    const far = ([one, other]) => Math.abs(this.origin(one)[0] - this.origin(other)[0]);
    let links = [...this.linked].sort((one, other) => far(one) - far(other));
    for (let attempt = 0; attempt < 4; attempt++) {
      this.taken = new Map();
      this.paths = new Map();
      this.courses = new Map();
      for (const strand of this.strands) this.layStrand(strand);
      for (const one of this.l.point) this.layStubs(one.name);
      const lacks = links.find(link => !this.layLink(...link));
      if (!lacks) return true;
      links = [lacks, ...links.filter(link => link !== lacks)];
    }
    return false;
  }

  // The place of a port: the end of a track, or the middle of a point or a border.
  origin(port) {
    const name = elementOf(port);
    return [this.at.get(this.node(name, this.looksEast(port))), this.strandOf.get(name).row * this.gap];
  }

  // The way in which a train leaves by a port.
  wayOf(port) {
    const isEast = this.looksEast(port);
    if (this.isLevel(port)) return isEast ? 0 : 4;
    return isEast ? (this.isUp(port) ? 7 : 1) : (this.isUp(port) ? 5 : 3);
  }

  take(x, y, what) {
    this.taken.set(place(x, y), what);
  }

  layStrand({elements, row}) {
    const y = row * this.gap;
    for (const name of elements) {
      const [west, east] = [this.at.get(this.node(name, false)), this.at.get(this.node(name, true))];
      for (let x = west; x <= east; x++) this.take(x, y, name);
      if (this.kind.get(name) === "track") this.courses.set(name, [Array.from({length: east - west + 1}, (_, at) => place(west + at, y))]);
    }
    for (let at = 1; at < elements.length; at++) {
      const one = this.levelPort(elements[at - 1], true), other = this.levelPort(elements[at], false), [from, to] = [this.origin(one)[0], this.origin(other)[0]];
      const path = [];
      for (let x = from; x <= to; x++) { path.push(place(x, y)); if (x > from && x < to) this.take(x, y, one); }
      this.keepPath(one, other, path);
      this.courses.set(one, [this.paths.get(one), this.paths.get(other)]);
    }
  }

  keepPath(one, other, path) {
    this.paths.set(one, path);
    this.paths.set(other, [...path].reverse());
  }

  // A port that leads nowhere is one rail long.
  layStubs(name) {
    for (const port of this.portsOf(name)) {
      if (this.mate.has(port)) continue;
      const from = place(...this.origin(port)), to = step(from, this.wayOf(port));
      if (!this.taken.has(to)) this.taken.set(to, name);
      this.paths.set(port, [from, to]);
    }
  }

  layLink(one, other) {
    const last = this.search(one, other), path = [];
    if (!last) return false;
    for (let state = last; state; state = state.before) {
      path.unshift(state.key);
      if (state.over && !this.bendAside(state.over)) return false;
    }
    this.keepPath(one, other, path);
    for (const key of path) if (!this.taken.has(key)) this.taken.set(key, "link");
    return true;
  }

  // The shortest way over free places from port to port, with few bends. It may cross level rail, which then bends aside.
  search(one, other) {
    const from = place(...this.origin(one)), goal = place(...this.origin(other)), start = this.wayOf(one), end = turned(this.wayOf(other));
    const fits = (port, wanted) => way => this.kind.get(elementOf(port)) === "point" ? way === wanted : near(way, wanted), isFirst = fits(one, start), isLast = fits(other, end);
    const [u, v] = spot(goal), far = key => { const [x, y] = spot(key); return Math.max(Math.abs(x - u), Math.abs(y - v)); };
    const queue = new Queue(), costs = new Map(), limits = this.limits();
    const add = (state, cost) => {
      const known = state.key + "," + state.way;
      if ((costs.get(known) ?? Infinity) <= cost) return;
      costs.set(known, cost);
      queue.push(cost + far(state.key), {...state, cost});
    };
    add({key: from, way: start, before: null}, 0);
    for (let count = 0; queue.size && count < 30000; count++) {
      const state = queue.pop();
      if (state.key === goal && state.before) return state;
      for (const way of [0, 1, 2, 3, 4, 5, 6, 7]) {
        if (state.before ? !near(way, state.way) : !isFirst(way)) continue;
        const key = step(state.key, way), cost = state.cost + (way % 2 ? 1.05 : 1) + (way === state.way ? 0 : 0.4);
        if (isOutside(key, limits)) continue;
        if ((key === goal && isLast(way)) || !this.taken.has(key)) add({key, way, before: state}, cost);
        else if (way % 2 && this.isCrossable(state.key, way)) add({key: step(key, way), way, before: {key, before: state, over: {key: state.key, way}}}, cost + 8);
      }
    }
    return null;
  }

  // A slope crosses level rail where four places of it lie in a row, and two beside it are free: the rail bends over to them.
  isCrossable(key, way) {
    const [x, y] = spot(key), [dx, dy] = STEPS[way], level = this.taken.get(place(x + dx, y + dy));
    if (!this.courses.has(level)) return false;
    const isFree = (along, aside) => !this.taken.has(place(x + along * dx, y + aside * dy));
    return [0, 1, 2, 3].every(along => this.taken.get(place(x + along * dx, y + dy)) === level) && isFree(1, 0) && isFree(2, 0) && isFree(2, 2);
  }

  bendAside({key, way}) {
    if (!this.isCrossable(key, way)) return false;
    const [x, y] = spot(key), [dx, dy] = STEPS[way], at = (along, aside) => place(x + along * dx, y + aside * dy), courses = this.courses.get(this.taken.get(at(1, 1)));
    for (const along of [1, 2]) {
      for (const course of courses) course[course.indexOf(at(along, 1))] = at(along, 0);
      this.taken.set(at(along, 0), "bend");
    }
    this.taken.set(at(1, 1), "link");
    this.taken.delete(at(2, 1));
    for (const along of [0, 3]) this.taken.set(at(along, 1), "bend");
    return true;
  }

  limits() {
    const columns = [...this.at.values()];
    return {west: Math.min(...columns) - 5, east: Math.max(...columns) + 5, north: -5, south: this.rows.length * this.gap + 5};
  }

  // ---- lines of tracks and points, as a file has them

  linesOf() {
    const lines = {};
    for (const one of this.l.point) for (const port of this.portsOf(one.name)) lines[port] = this.whole(port).flatMap(spot);
    for (const one of this.l.track) lines[one.name] = this.lineOfTrack(one.name);
    for (const name of this.l.border) lines[name] = this.origin(name + ".end");
    return lines;
  }

  // The path from a port to what it is joined to, over what has no name.
  whole(port) {
    const path = this.paths.get(port), far = this.mate.get(port);
    if (!far || this.kind.get(elementOf(far)) !== "loop") return path;
    const exit = elementOf(far) + (endOf(far) === "a" ? ".b" : ".a"), [x, y] = this.origin(far), [u] = this.origin(exit), level = [];
    for (let at = x; at !== u; at += Math.sign(u - x)) level.push(place(at, y));
    return [...path.slice(0, -1), ...level, place(u, y), ...this.paths.get(exit).slice(1)];
  }

  // Where two ends of tracks don't lie at one place, the first one takes the way between.
  lineOfTrack(name) {
    const [course] = this.courses.get(name), middle = this.turned.has(name) ? [...course].reverse() : course;
    const more = port => { const far = this.site.joint.get(port); return far && this.site.kind.get(elementOf(far)) === "track" && port < far ? this.whole(port).slice(1) : []; };
    return [...more(name + ".a").reverse(), ...middle, ...more(name + ".b")].flatMap(spot);
  }
}

const near = (one, other) => [0, 1, 7].includes((one - other + 8) % 8);
const isOutside = (key, {west, east, north, south}) => { const [x, y] = spot(key); return x < west || x > east || y < north || y > south; };

// What has the least cost comes first.
class Queue {
  constructor() {
    this.heap = [];
  }

  get size() {
    return this.heap.length;
  }

  push(cost, value) {
    const heap = this.heap;
    let at = heap.push({cost, value}) - 1;
    for (; at > 0 && heap[(at - 1) >> 1].cost > cost; at = (at - 1) >> 1) heap[at] = heap[(at - 1) >> 1];
    heap[at] = {cost, value};
  }

  pop() {
    const heap = this.heap, first = heap[0], last = heap.pop();
    if (heap.length === 0) return first.value;
    let at = 0;
    for (let next = 1; next < heap.length; next = 2 * at + 1) {
      if (next + 1 < heap.length && heap[next + 1].cost < heap[next].cost) next += 1;
      if (heap[next].cost >= last.cost) break;
      heap[at] = heap[next];
      at = next;
    }
    heap[at] = last;
    return first.value;
  }
}

"##] $($later)*)
    };
}

pub(crate) use placing;
