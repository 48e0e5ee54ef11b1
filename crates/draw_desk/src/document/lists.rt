//! What stands beside the plan.

/// The bar with the verdict, what is chosen, faults and notes, and routes.
macro_rules! lists {
    ([$($before:literal)*] $next:ident $($later:ident)*) => {
        $next!([$($before)* r##"// ---- the bar: the verdict, and who checked

const TOOLS = {choose: ["Choose", "v"], rail: ["Rail", "r"], joint: ["Joint", "j"], signal: ["Signal", "s"], border: ["Border", "b"], erase: ["Erase", "e"]};
const HINTS = {
  choose: "click: choose; double click: a name; drag a signal along its rail",
  rail: "drag, or click from place to place; Enter ends",
  joint: "click a rail: a section ends there",
  signal: "point beside the rail, on the right of the trains that it rules",
  border: "click an end of a rail",
  erase: "click, or drag over what is to go",
};

let saying = "";

// Something to be told until the next change of the tool.
function say(text) {
  saying = text;
  paintWord();
}

function paintWord() {
  const faults = faultsNow(), said = verdict(), {signal, point, section} = read.l;
  const own = `ok: ${signal.length} signals, ${point.length} points, ${section.length} sections, ${table.kept.length} routes`;
  const isProved = Boolean(said) && read.faults.length === 0;
  by("d-said").textContent = faults.length ? faults[0].text : isProved ? said.out.split("\n")[0] : own;
  by("d-word").dataset.kind = faults.length ? "fault" : "ok";
  by("d-by").textContent = (faults.length > 1 ? "and " + (faults.length - 1) + " more, " : "") + whoChecked(isProved);
  by("d-by").dataset.proved = isProved ? "yes" : "no";
  by("d-hint").textContent = saying || HINTS[tool];
  by("d-hint").dataset.said = saying ? "yes" : "no";
  if (station) by("d-file-name").textContent = (isUnsaved() ? "\u2022 " : "") + station.file.split("/").at(-1);
}

function whoChecked(isProved) {
  if (isProved) return "checked by station " + station.version;
  if (station?.isGone) return "by this page, which isn't proved: " + station.isGone;
  return "by this page, which isn't proved" + (station && !read.faults.length ? ": the station is asked" : "");
}

// ---- the lists

function paintLists() {
  if (document.activeElement !== by("d-station")) by("d-station").value = drawing.station.name;
  document.title = drawing.station.name + " – drawing";
  by("d-plan").dataset.tool = tool;
  for (const name of Object.keys(TOOLS)) by("d-tool-" + name).setAttribute("aria-pressed", tool === name);
  by("d-undo").disabled = !past.length;
  by("d-redo").disabled = !future.length;
  by("d-begin").hidden = read.kinds.size > 0 || chain !== null || stroke !== null;
  paintFaults();
  paintRoutes();
  paintFields();
  if (by("d-toml").value !== read.text) by("d-toml").value = read.text;
}

// A list is painted anew only where it says something else; the row that has the focus keeps it.
function fill(list, rows) {
  const at = [...list.children].indexOf(document.activeElement?.closest?.("li"));
  list.replaceChildren(...rows);
  const first = list.querySelector("li[tabindex]");
  if (first) first.tabIndex = 0;
  if (at >= 0) list.children[Math.min(at, list.children.length - 1)]?.focus({preventScroll: true});
}

// Points at something as long as the mouse, or the focus, is on its row.
function listen(row, one) {
  const on = () => { lit = one; mark(row); };
  const off = () => { if (lit === one) { lit = null; mark(null); } };
  Object.assign(row, {onmouseenter: on, onmouseleave: off, onfocus: on, onblur: off, tabIndex: -1});
  return row;
}

function mark(row) {
  document.querySelectorAll("li.d-lit").forEach(of => of.classList.remove("d-lit"));
  row?.classList.add("d-lit");
  repaintLit();
}

const button = (text, title, does) => html("button", {textContent: text, title, onclick: does});
// Of a row only itself is in the tab order; Enter does what its button does.
const rowButton = (text, title, does) => Object.assign(button(text, title, does), {tabIndex: -1});
const fixButton = fix => fix ? [rowButton(fix.text, "mends it", () => FIXES[fix.does](fix))] : [];

function paintFaults() {
  const faults = faultsNow(), notes = [...read.notes, ...notesBeyond()];
  const row = (kind, sign, one) => listen(html("li", {className: kind}, sign, html("span", {className: "d-grow", textContent: one.text}), ...fixButton(one.fix)), one);
  const rows = faults.map((one, number) => row("d-fault", html("span", {className: "d-ring", textContent: number + 1}), one));
  rows.push(...notes.map(one => row("d-note", html("span", {className: "d-sign d-i", textContent: "i"}), one)));
  by("d-count").textContent = count(faults, "fault") + ", " + count(notes, "note");
  if (!rows.length) rows.push(html("li", {className: "d-note", textContent: "none"}));
  fill(by("d-faults"), rows);
}

const count = (list, word) => list.length + " " + word + (list.length === 1 ? "" : "s");

function paintRoutes() {
  const rows = table.routes.map(routeRow), seen = new Set();
  const isOther = way => !table.routes.some(one => one.entry === way.entry && one.exit === way.exit);
  for (const way of table.impossible.filter(isOther)) {
    const pair = way.entry + " → " + way.exit;
    if (seen.has(pair)) continue;
    if (!seen.size) rows.push(html("li", {className: "d-head", textContent: "impossible"}));
    seen.add(pair);
    const why = html("span", {className: "d-grow"}, html("b", {textContent: pair}), ": " + whyImpossible(way.causes[0]));
    rows.push(listen(html("li", {className: "d-impossible"}, html("span", {className: "d-sign", textContent: "✕"}), why), {way}));
  }
  by("d-routes-count").textContent = table.kept.length + " of " + table.routes.length + " derived";
  if (!rows.length) rows.push(html("li", {className: "d-note", textContent: read.isUnnamed ? "routes follow once all names are right" : "routes follow from signals and borders"}));
  fill(by("d-routes"), rows);
}

const sidesOf = list => Object.entries(list).map(([point, lies]) => point + " " + lies).join(", ");
const toggleOut = one => change(all => { all.without = one.isOut ? all.without.filter(key => key !== one.key) : [...all.without, one.key]; });
const isByHand = one => one.key in drawing.asides || one.extra?.length > 0;

function routeRow(one) {
  const flank = sidesOf(one.flank), said = sidesOf(one.points) + (flank ? " | " + flank : "");
  const box = html("input", {type: "checkbox", checked: !one.isOut, title: "whether it is in the table", onchange: () => toggleOut(one), tabIndex: -1, ariaLabel: one.name});
  const pencil = isByHand(one) ? [html("span", {className: "d-hand", title: "something of it was chosen by hand", textContent: "✎"})] : [];
  const detail = html("span", {className: "d-grow d-ends", title: "points on its way" + (flank ? " | points that guard it" : ""), textContent: said});
  const aspect = rowButton(one.aspect, "proceed or slow", () => change(all => setAside(all, one, "aspect", one.aspect === "slow" ? "proceed" : "slow")));
  const row = html("li", {className: "d-route" + (one.isOut ? " d-out" : "")}, box, html("b", {textContent: one.name}), ...pencil, detail, aspect);
  row.onclick = event => { if (!event.target.matches("input,button")) chooseRoute(one); };
  row.toggle = () => toggleOut(one);
  row.choose = () => { chooseRoute(one); askChosen(); };
  return listen(row, one);
}

function chooseRoute(one) {
  chosen = {kind: "route", key: one.key};
  paint();
}

// What is as it is derived isn't kept.
function setAside(all, one, what, value) {
  const aside = {...all.asides[one.key], [what]: value};
  if (String(value) === String(one.derived[what])) delete aside[what];
  all.asides[one.key] = aside;
  if (!Object.keys(aside).length) delete all.asides[one.key];
}

// ---- what is chosen

function field(label, value, set, kind = "text") {
  const input = html("input", {type: kind, value, spellcheck: false, ariaLabel: label});
  input.onchange = () => set(kind === "number" ? +input.value : input.value.trim());
  return html("label", {className: "d-field"}, html("span", {textContent: label}), input);
}

// A name and, beside it, an identity.
function nameField(label, one, name, id) {
  const input = html("input", {type: "text", value: one.name, spellcheck: false, ariaLabel: label});
  const number = html("input", {type: "number", value: one.id, ariaLabel: "id of " + one.name, title: "its identity"});
  input.onchange = () => name(input.value.trim());
  number.onchange = () => id(+number.value);
  return html("div", {className: "d-field"}, html("span", {textContent: label}), html("span", {className: "d-two"}, input, number));
}

function tick(label, checked, set) {
  const box = html("input", {type: "checkbox", checked, onchange: event => set(event.target.checked)});
  return html("label", {className: "d-field d-wide"}, html("span", {className: "d-tick"}, box, label));
}

const row = (...inside) => html("div", {className: "d-row"}, ...inside);
const telling = text => html("p", {className: "d-none", textContent: text});

function choice(label, options, value, set) {
  const select = html("select", {ariaLabel: label}, ...options.map(([one, text]) => html("option", {value: one, textContent: text, selected: one === value})));
  select.onchange = () => set(select.value);
  return html("label", {className: "d-field"}, html("span", {textContent: label}), select);
}

const FIELDS = {signal: signalFields, point: pointFields, border: borderFields, mark: markFields, section: sectionFields, route: routeFields};

function paintFields() {
  if (by("d-fields").contains(document.activeElement) && document.activeElement.matches("input[type=text],input[type=number]")) return;
  const rows = chosen && FIELDS[chosen.kind]();
  if (chosen && !rows) chosen = null;
  const titles = {mark: "Joint", signal: "Signal", point: "Point", border: "Border", section: "Section", route: "Route"};
  by("d-what").textContent = rows ? titles[chosen.kind] + " " + (chosen.kind === "mark" ? "" : nameOf(chosen)) : "Station";
  by("d-fields").replaceChildren(...(rows || stationFields()));
}

function signalFields() {
  const one = drawing.signals.find(one => one.name === chosen.name), port = read.l.signal.find(it => it.name === chosen.name)?.at;
  if (!one) return null;
  return [nameField("name", one, name => rename(chosen, name), id => change(() => { one.id = id; })),
    telling(port ? "It rules the trains that leave " + elementOf(port) + " by " + port + "." : "It stands at no joint."),
    row(button("Turn round", "it rules the trains of the other direction", () => flip(one)), button("Take away", "Delete", removeChosen))];
}

function pointFields() {
  const one = drawing.points[chosen.key], of = read.kinds.get(chosen.key), it = read.l.point.find(it => it.name === one?.name);
  if (!it) return null;
  const form = end => of[end] === turned(of.tip) ? "straight" : "curved", isSlow = end => it.slow === end || it.slow === "both";
  const leg = end => tick(`${end} leg (${form(end)}) is passed slowly`, isSlow(end), is => change(all => { all.slow[one.name + " " + end] = is; }));
  return [nameField("name", one, name => rename(chosen, name), id => change(() => { one.id = id; })), leg("left"), leg("right"), telling("It lies in section " + it.section + ".")];
}

function borderFields() {
  const name = drawing.borders[chosen.key];
  return name === undefined ? null : [field("name", name, to => rename(chosen, to)), row(button("Take away", "Delete", removeChosen))];
}

function markFields() {
  const mark = drawing.marks[chosen.key];
  if (!mark) return null;
  const pair = read.l.joint.find(([one]) => read.where.port.get(one) === chosen.key) || [];
  return [tick("sections end here", mark.divides, is => change(all => { all.marks[chosen.key].divides = is; })),
    telling(pair.length ? "It joins " + pair.join(" and ") + "." : ""), row(button("Take away", "Delete", removeChosen))];
}

function sectionFields() {
  if (!read.where.section.has(chosen.name)) return null;
  const run = read.runOf.get(chosen.rail), of = read.l.detector.find(one => one.sections.includes(chosen.name));
  const rows = [field("name", chosen.name, name => rename(chosen, name))];
  if (run?.isTrack) rows.push(field("track", run.name, name => change(all => nameTrack(all, run, name))));
  rows.push(choice("detector", [...drawing.detectors.map(one => [one.name, one.name]), ["", "a new one"]], of?.name, name => change(all => putToDetector(all, chosen.name, name))));
  return rows;
}

function putToDetector(all, section, name) {
  for (const one of all.detectors) one.sections = one.sections.filter(it => it !== section);
  const one = all.detectors.find(one => one.name === name) || addDetector(all, read.l);
  one.sections.push(section);
}

function routeFields() {
  const one = table.routes.find(one => one.key === chosen.key);
  if (!one) return null;
  const set = (what, value) => change(all => setAside(all, one, what, value)), others = table.kept.filter(it => it !== one && !one.extra.includes(it.name));
  const rows = [field("name", one.name, name => set("name", name)),
    choice("aspect", [["proceed", "proceed"], ["slow", "slow"]], one.aspect, value => set("aspect", value)),
    field("approach", one.approach.join(" "), text => setApproach(one, text)),
    tick("it is in the table", !one.isOut, () => toggleOut(one))];
  if (one.isOut) return rows;
  for (const name of one.extra) rows.push(row(button("✕", "they may be set together again", () => change(all => takeExtra(all, one, name))), "never together with " + name));
  rows.push(choice("not with", [["", "…"], ...others.map(it => [it.key, it.name])], "", key => change(all => { if (key) all.extra.push([one.key, key].sort()); })));
  if (one.key in drawing.asides) rows.push(row(button("As derived", "name, aspect and approach", () => change(all => { delete all.asides[one.key]; }))));
  return rows;
}

function takeExtra(all, one, name) {
  const other = table.kept.find(it => it.name === name).key;
  all.extra = all.extra.filter(pair => !(pair.includes(one.key) && pair.includes(other)));
}

function setApproach(one, text) {
  const names = text.split(/[\s,]+/).filter(Boolean), wrong = names.find(name => !table.site.order.has(name));
  if (wrong) return say("there is no section " + wrong);
  change(all => setAside(all, one, "approach", names));
}

function stationFields() {
  const rows = [nameField("name", drawing.station, name => change(all => { all.station.name = name; }), id => change(all => { all.station.id = id; }))];
  for (const one of drawing.detectors.filter(one => read.l.detector.some(it => it.name === one.name))) {
    const rename = name => change(all => { renameInOrder(all, one.name, name); one.name = name; });
    rows.push(nameField("detector", one, rename, id => change(() => { one.id = id; })));
  }
  // how far before a signal its approach sections reach
  rows.push(choice("approach", [["signal", "to a signal"], ["berth", "to a point"]], drawing.rule, rule => change(all => { all.rule = rule; })));
  rows.push(telling("Draw rails: a point comes where three of them meet. Joints part sections. Tracks, sections, joints and routes follow."));
  return rows;
}

"##] $($later)*)
    };
}

pub(crate) use lists;
