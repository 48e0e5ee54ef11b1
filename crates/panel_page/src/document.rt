//! The page, as it is served.

/// The page itself.
const PAGE: &str = r##"<!doctype html>
<html lang="en">
<head>
<meta charset="utf-8">
<meta http-equiv="Content-Security-Policy" content="default-src 'none'; style-src 'unsafe-inline'; script-src 'unsafe-inline'; connect-src 'self'; img-src data:">
<meta name="viewport" content="width=device-width">
<title>Panel</title>
<link rel="icon" href="data:,">
<style>
*{box-sizing:border-box}
[hidden]{display:none!important}
html,body{height:100%;margin:0}
body{display:grid;grid-template-rows:auto minmax(0,1.2fr) auto minmax(0,1fr);font:13px/1.35 system-ui,sans-serif;color:#111;background:#eceff1}
button,select,input{font:inherit;color:inherit}
button{border:1px solid #667;border-radius:3px;background:#fff;padding:2px 7px;cursor:pointer;white-space:nowrap}
button:hover:enabled{background:#e3ecf7}
:focus-visible{outline:3px solid #0b5fd0;outline-offset:1px}
kbd{font:11px monospace;border:1px solid #99a;border-radius:3px;padding:0 4px;background:#fff;color:#111}
header{display:flex;gap:12px;align-items:center;padding:5px 12px;background:#1d2b36;color:#fff}
header h1{font-size:16px;margin:0;letter-spacing:.06em}
header button{color:#111}
header .p-right{margin-left:auto;display:flex;gap:14px;align-items:center;font-variant-numeric:tabular-nums}
#p-links[data-bad=yes]{background:#fff;color:#111;padding:0 6px;border-radius:3px;font-weight:600}
#p-memory[data-bad=yes]{text-decoration:underline;font-weight:700}
#p-mode{padding:1px 8px;border-radius:3px;font-weight:600;background:#dfe7ec;color:#111}
#p-mode[data-mode=holding]{background:repeating-linear-gradient(45deg,#f7d36b 0 8px,#fff3c9 8px 16px)}
#p-mode[data-mode=resume]{background:#fff;outline:2px dashed #f7d36b}
#p-mode[data-mode=gone]{background:#000;color:#fff;outline:2px solid #fff}
#p-resume{background:#f7d36b;font-weight:600}
#p-closings{min-width:0;overflow:hidden;text-overflow:ellipsis;white-space:nowrap;padding:1px 8px;border-radius:3px;background:#fff3e6;color:#111;border:2px solid #c25700;font-weight:600}
#p-counts{white-space:nowrap;margin-left:auto;font-weight:400}
.p-box h2 #p-counts+kbd{margin-left:0}
header h1,#p-mode,header>button,.p-right{flex:none}
header>#p-closings{flex:0 1 auto}
#p-plan{position:relative;min-height:0;background:#fff;border-bottom:1px solid #b6c1c9;overflow:auto hidden}
#p-plan>svg{display:block;width:100%;height:100%}
.p-gone #p-plan,.p-gone main{opacity:.45;filter:grayscale(1)}
#p-word{min-height:30px;padding:4px 12px;background:#fff;border-bottom:1px solid #b6c1c9;display:flex;gap:10px;align-items:baseline}
#p-word b{font-size:14px}
#p-word .p-hint{margin-left:auto;color:#4a5b68;text-align:right}
#p-word[data-kind=refused]{background:#2b2b2b;color:#fff}
#p-word[data-kind=refused] b::before{content:"\2716  "}
#p-word[data-kind=refused] .p-hint{color:#cdd}
main{display:grid;grid-template-columns:minmax(232px,1.05fr) minmax(238px,1fr) minmax(256px,1.05fr) minmax(212px,.8fr) minmax(250px,1.2fr);gap:6px;padding:6px;min-height:0}
section.p-box{display:flex;flex-direction:column;min-height:0;min-width:0;background:#fff;border:1px solid #b6c1c9;border-radius:4px}
.p-box h2{white-space:nowrap;font-size:12px;margin:0;padding:3px 8px;background:#dfe7ec;display:flex;gap:6px;align-items:center;border-radius:4px 4px 0 0}
.p-box h2 kbd,.p-box h2 .p-push{margin-left:auto}
.p-rows{overflow:auto;padding:4px 8px;flex:1;min-height:0}
.p-row{display:flex;gap:5px;align-items:center;margin-bottom:4px}
.p-row label{display:flex;gap:5px;align-items:center;white-space:nowrap}
.p-row .p-wide{flex:1;min-width:0}
.p-row input[type=number]{width:58px}
.p-row:has(.p-now){flex-wrap:wrap}
.p-now{color:#4a5b68;white-space:nowrap}
ul.p-list{list-style:none;margin:0;padding:0}
ul.p-list li{display:flex;gap:5px;align-items:center;padding:1px 0;flex-wrap:wrap}
ul.p-list .p-why{flex-basis:100%;color:#4a5b68;padding-left:2.6em}
ul.p-list .p-grow{flex:1;min-width:0;overflow:hidden;text-overflow:ellipsis;white-space:nowrap}
.p-route{flex:1;min-width:0;overflow:hidden;display:flex;gap:8px;text-align:left;border-color:transparent;padding:1px 6px}
.p-route .p-ends{color:#4a5b68;margin-left:auto}
.p-route[aria-pressed=true]{border-color:#14682e;border-width:1px 1px 1px 6px;font-weight:600}
.p-route.p-can{border-color:#0b5fd0;border-style:dashed}
.p-route.p-cause{outline:3px dashed #b5009b}
.p-route.p-closed{border-style:double;border-width:3px;border-color:#c25700;text-decoration:line-through}
.p-small{padding:0 4px;min-width:24px}
.p-small[aria-pressed=true]{background:#0b5fd0;color:#fff;border-color:#0b5fd0;font-weight:600}
.p-small[aria-pressed=true]:hover:enabled{background:#0a4fae}
.p-closed-sign{color:#c25700;font-weight:700}
ul.p-list li.p-head{font-weight:600;color:#4a5b68;padding-top:4px}
#p-trains select{flex:1;min-width:74px}
#p-trains .p-grow{order:1;flex:1 0 40%;color:#4a5b68}
#p-trains .p-why{order:2;flex:1 1 50%;padding-left:0}
#p-sure p{max-width:52ch;margin:6px 0}
#p-sure .p-row{justify-content:flex-end;margin:12px 0 0;gap:10px}
#p-sure-yes{background:#c25700;color:#fff;border-color:#8a3e00;font-weight:600}
#p-sure-yes:hover:enabled{background:#8a3e00}
.p-none{color:#4a5b68;margin:4px 0}
#p-log{font:12px/1.4 ui-monospace,monospace;overflow-wrap:anywhere}
#p-log div{display:flex;gap:8px}
#p-log .p-time{color:#4a5b68;white-space:nowrap}
#p-log .p-sign{flex:none;width:1em;text-align:center}
#p-log [data-kind=refused],#p-log [data-kind=loss]{font-weight:700}
#p-log[data-only=asked] [data-kind=report],#p-log[data-only=asked] [data-kind=loss],#p-log[data-only=seen] [data-kind=asked],#p-log[data-only=seen] [data-kind=refused],#p-log[data-only=seen] [data-kind=moved],#p-log[data-only=asked] [data-kind=moved]{display:none}
#p-chart{width:100%;height:100%;display:block}
.p-split{display:grid;grid-template-rows:minmax(0,1fr) minmax(0,1.2fr);gap:8px;min-height:0;min-width:0}
dialog{border:1px solid #667;border-radius:6px;padding:14px 20px;max-width:900px}
dialog h2{margin:0 0 8px;font-size:16px}
dialog .p-two{display:grid;grid-template-columns:auto auto;gap:0 32px}
dialog td{padding:2px 8px 2px 0;vertical-align:middle}
dialog td:first-child{white-space:nowrap}
/* the classes set, off, moving, occupied, unknown, stop, proceed and slow are the plan's own */
#p-plan .rail,#p-plan .joint,#p-plan .ring,#p-plan .arrow,#p-plan .mast,#p-plan .lamp{pointer-events:none}
#p-plan .section{cursor:pointer}
#p-plan .track>.name{opacity:0}
#p-plan .hit{fill:transparent;stroke:none;cursor:pointer}
#p-plan .signal:hover .hit,#p-plan .border:hover .hit{fill:#dbe7f8}
#p-plan .section:hover .label{text-decoration:underline}
#p-plan :focus{outline:none}
#p-plan .signal:focus-visible .hit,#p-plan .border:focus-visible .hit{stroke:#0b5fd0;stroke-width:2.5}
#p-plan .section:focus-visible .label{fill:#0b5fd0;text-decoration:underline;font-weight:bold}
#p-plan .section:focus-visible .band{stroke:#0b5fd0}
#p-plan .entry .hit{stroke:#0b5fd0;stroke-width:1.8;stroke-dasharray:5 2}
#p-plan .can .hit{stroke:#0b5fd0;stroke-width:1.8;fill:#cfe0f7}
#p-plan .cannot .hit{stroke:#667;stroke-width:1;stroke-dasharray:1.5 2.5}
#p-plan .set .rail{stroke-width:5}
#p-plan .way .rail{stroke:#0b5fd0;stroke-width:4;stroke-dasharray:6 3}
#p-plan .occupied .band{stroke-width:12;stroke:#c9302c;stroke-dasharray:5 1.6}
#p-plan .unknown .band{stroke:#777;stroke-width:9;stroke-dasharray:1.5 3}
#p-plan .occupied.unknown .band{stroke:#8e1f1c;stroke-width:12;stroke-dasharray:1.5 3}
#p-plan .moving .rail{animation:p-blink 1s steps(2) infinite}
#p-plan .bar{stroke-width:1.7;pointer-events:none;visibility:hidden;stroke:#fff}
#p-plan .stop .bar.of-stop,#p-plan .proceed .bar.of-proceed,#p-plan .slow .bar.of-slow{visibility:visible}
#p-plan .slow .bar.of-slow{stroke:#111}
#p-plan .sign{display:none;fill:#b5009b;font-weight:bold}
#p-plan .lost .sign.of-lost,#p-plan .stuck .sign.of-stuck,#p-plan .unlike .sign.of-unlike,#p-plan .network-a .sign.of-network-a,#p-plan .network-b .sign.of-network-b{display:inline}
#p-plan .sign.of-closed{fill:#c25700}
#p-plan .closed .sign.of-closed{display:inline}
#p-plan .fence,#p-plan .cross{visibility:hidden;pointer-events:none}
#p-plan .fence.outer{stroke:#c25700;stroke-width:17}
#p-plan .fence.inner{stroke:#fff;stroke-width:13}
#p-plan .fence.bars{stroke:#c25700;stroke-width:13;stroke-dasharray:1.8 2.6}
#p-plan .cross{stroke:#c25700;stroke-width:2}
#p-plan .closed .fence,#p-plan .closed .cross{visibility:visible}
#p-plan .point{cursor:pointer}
#p-plan .train{pointer-events:none}
#p-plan .train rect{fill:#111;stroke:#fff;stroke-width:1}
#p-plan .train text{font-weight:700;font-size:8.5px;fill:#fff}
#p-plan .cause .band,#p-plan .cause .rail,#p-plan .cause .mast,#p-plan .cause .lamp{stroke:#b5009b;animation:p-blink .5s steps(2) 6}
#p-plan .cause .band{stroke-dasharray:6 3;stroke-width:12}
#p-plan .cause .rail{stroke-width:5}
#p-plan .cause .name,#p-plan .cause .label{fill:#b5009b;text-decoration:underline}
@keyframes p-blink{50%{opacity:.3}}
@media (prefers-reduced-motion:reduce){#p-plan *{animation:none!important;transition:none!important}}
@media (max-width:1500px){#p-record{display:none}}
@media (min-width:1600px){body{font-size:15px}.p-box h2{font-size:14px}#p-log{font-size:14px}main{grid-template-columns:minmax(330px,1fr) minmax(270px,.8fr) minmax(350px,1fr) minmax(270px,.75fr) minmax(400px,1.3fr)}}
</style>
</head>
<body>
<header>
  <h1 id="p-name">…</h1>
  <span id="p-mode" role="status">no answer yet</span>
  <button id="p-resume" hidden title="it can't be taken back but by a restart">Resume <kbd>r</kbd></button>
  <button id="p-closings" hidden></button>
  <button id="p-cancel-all" title="each route, and what is set by itself">Cancel all <kbd>x</kbd></button>
  <span class="p-right"><span id="p-links"></span><span id="p-memory" title="what the datagrams take that were sent; at the limit the panel stops"></span><span id="p-record"></span><b id="p-time"></b><button id="p-help">Keys and signs <kbd>?</kbd></button></span>
</header>
<div id="p-plan" role="group" aria-label="track plan"></div>
<div id="p-word" aria-live="assertive"><b id="p-said"></b><span class="p-hint" id="p-hint"></span></div>
<main>
  <section class="p-box" aria-label="routes"><h2>Routes<kbd>/</kbd></h2><div class="p-rows"><ul class="p-list" id="p-routes"></ul></div></section>
  <section class="p-box" aria-label="by hand" id="p-hand-box"><h2>By hand<span id="p-counts" title="auxiliary commands that were accepted: each is counted"></span><kbd>h</kbd></h2><div class="p-rows">
    <div class="p-row"><select id="p-thing" class="p-wide" aria-label="thing to close"></select><button id="p-close">Close</button></div>
    <div class="p-row"><select id="p-moved" class="p-wide" aria-label="point to move"></select><button id="p-move-left">Left</button><button id="p-move-right">Right</button></div>
    <ul class="p-list" id="p-standing"></ul></div></section>
  <section class="p-box" aria-label="trains" id="p-trains-box"><h2>Trains<kbd>t</kbd></h2><div class="p-rows">
    <div class="p-row"><select id="p-place" class="p-wide" aria-label="where a train is put"></select><button id="p-put">Put a train</button></div>
    <ul class="p-list" id="p-trains"></ul>
    <p class="p-none">A train occupies and clears sections, and waits at a signal at stop. A click on a section occupies or clears it by hand.</p></div></section>
  <section class="p-box" aria-label="faults" id="p-faults-box"><h2>Faults<kbd>f</kbd></h2><div class="p-rows">
    <div class="p-row"><select id="p-node" class="p-wide" aria-label="node"></select><button id="p-cut">Cut</button><button id="p-restart">Restart</button></div>
    <div class="p-row"><select id="p-point" class="p-wide" aria-label="point"></select><button id="p-jam">Jam</button></div>
    <div class="p-row"><label>lose one in <input id="p-drop" type="number" min="0" max="1000" value="0"></label><span class="p-now" id="p-drop-now"></span></div>
    <div class="p-row"><label>delay, ms <input id="p-delay" type="number" min="0" max="2000" step="50" value="0"></label><span class="p-now" id="p-delay-now"></span></div>
    <ul class="p-list" id="p-faults"></ul></div></section>
  <div class="p-split">
    <section class="p-box" aria-label="log"><h2>Log<kbd>l</kbd><select id="p-only" aria-label="what the log shows"><option value="all">all</option><option value="asked">commands</option><option value="seen">reports</option></select></h2><div class="p-rows" id="p-log" role="log" aria-live="off" tabindex="0"></div></section>
    <section class="p-box" aria-label="strip chart"><h2>Last three minutes</h2><div class="p-rows" style="padding:0;overflow:hidden"><canvas id="p-chart" role="img" aria-label="what was seen in the last three minutes"></canvas></div></section>
  </div>
</main>
<dialog id="p-sure" aria-labelledby="p-sure-head">
  <h2 id="p-sure-head"></h2>
  <p id="p-sure-text"></p>
  <p id="p-sure-count"></p>
  <form method="dialog" class="p-row"><button id="p-sure-no" value="no" autofocus></button><button id="p-sure-yes" value="yes"></button></form>
</dialog>
<dialog id="p-keys">
  <h2>Keys and signs</h2>
  <div class="p-two">
  <table>
    <tr><td><kbd>p</kbd></td><td>to the plan; arrows go from one signal, border or section to the next, <kbd>Enter</kbd> clicks</td></tr>
    <tr><td><kbd>Esc</kbd></td><td>leaves the entry signal that was chosen</td></tr>
    <tr><td><kbd>/</kbd></td><td>to the routes; arrows, or letters with Shift; <kbd>Enter</kbd> sets or cancels</td></tr>
    <tr><td><kbd>a</kbd> <kbd>w</kbd></td><td>in the list of routes: the route is automatic, or not; it waits, or not</td></tr>
    <tr><td><kbd>x</kbd></td><td>cancels every route, from wherever you are</td></tr>
    <tr><td><kbd>r</kbd></td><td>resume, when the interlocking waits for it</td></tr>
    <tr><td><kbd>h</kbd></td><td>to what is done by hand; <kbd>Shift</kbd> and a click on a section, a point or a signal takes it there</td></tr>
    <tr><td><kbd>t</kbd> <kbd>s</kbd></td><td>to the trains; steps the first one</td></tr>
    <tr><td><kbd>f</kbd> <kbd>l</kbd></td><td>to the faults; to the log</td></tr>
    <tr><td><kbd>?</kbd></td><td>this</td></tr>
  </table>
  <table id="p-signs"></table>
  </div>
  <form method="dialog"><button>Close</button></form>
</dialog>
<script>
"use strict";
const by = id => document.getElementById(id);
const SVG = "http://www.w3.org/2000/svg";
const ASPECTS = ["stop", "proceed", "slow"];

// What the panel said: what doesn't change, the words of each thing by its kind and name, and the number up to which it is known.
let station = null;
let layout = null;
let known = new Map();
let number = 0;

// ---- the layout, from its text: TOML 1.1

const ESCAPES = {b: "\b", t: "\t", n: "\n", f: "\f", r: "\r", e: "\x1b", '"': '"', "\\": "\\"};

function unescaped(raw) {
  return raw.replace(/\\(?:u([0-9A-Fa-f]{4})|U([0-9A-Fa-f]{8})|x([0-9A-Fa-f]{2})|[ \t]*\r?\n\s*|(.))/g,
    (all, four, eight, two, one) => four || eight || two ? String.fromCodePoint(parseInt(four || eight || two, 16)) : one ? ESCAPES[one] : "");
}

class Toml {
  constructor(text) {
    this.text = text;
    this.at = 0;
  }

  // What a sticky pattern finds here, which is passed over.
  next(pattern) {
    pattern.lastIndex = this.at;
    const found = pattern.exec(this.text);
    if (found) this.at = pattern.lastIndex;
    return found;
  }

  need(pattern) {
    const found = this.next(pattern);
    if (!found) throw new Error("the layout isn't read at byte " + this.at);
    return found;
  }

  lines() {
    this.next(/(?:\s|#[^\n]*)*/y);
  }

  string() {
    const raw = this.next(/'''(?:\r?\n)?([^]*?'{0,2})'''(?!')/y) || this.next(/'(?!'')([^'\n]*)'/y);
    if (raw) return raw[1];
    const found = this.next(/"""(?:\r?\n)?((?:\\[^]|[^\\])*?"{0,2})"""(?!")/y) || this.next(/"(?!"")((?:\\.|[^"\\\n])*)"/y);
    return found && unescaped(found[1]);
  }

  key() {
    const parts = [];
    do {
      this.next(/[ \t]*/y);
      parts.push(this.string() ?? this.need(/[A-Za-z0-9_-]+/y)[0]);
    } while (this.next(/[ \t]*\./y));
    return parts;
  }

  value() {
    const text = this.string();
    if (text !== null) return text;
    if (this.next(/\[/y)) return this.items(/\]/y, [], all => all.push(this.value()));
    if (this.next(/\{/y)) return this.items(/\}/y, Object.create(null), all => this.entry(all));
    const word = (this.next(/\d{4}-\d\d-\d\d(?:[Tt ]\d\d:[^\s,\]}#]*)?/y) || this.need(/[^\s,\]}#]+/y))[0];
    return word === "true" || (word === "false" ? false : Number.isNaN(+word.replaceAll("_", "")) ? word : +word.replaceAll("_", ""));
  }

  items(end, all, take) {
    for (this.lines(); !this.next(end); this.lines()) {
      take(all);
      this.lines();
      if (!this.next(/,/y)) {
        this.need(end);
        break;
      }
    }
    return all;
  }

  entry(table) {
    const path = this.key();
    this.need(/[ \t]*=[ \t]*/y);
    inner(table, path.slice(0, -1))[path.at(-1)] = this.value();
  }

  read() {
    const top = Object.create(null);
    let table = top;
    for (this.lines(); this.at < this.text.length; this.lines()) {
      const head = this.next(/\[\[?/y);
      if (!head) {
        this.entry(table);
        continue;
      }
      const path = this.key();
      this.need(/[ \t]*\]\]?/y);
      if (head[0] === "[[") (inner(top, path.slice(0, -1))[path.at(-1)] ??= []).push(Object.create(null));
      table = inner(top, path);
    }
    return top;
  }
}

function inner(table, path) {
  for (const part of path) {
    const next = table[part] ??= Object.create(null);
    table = Array.isArray(next) ? next.at(-1) : next;
  }
  return table;
}

// What the page needs of a layout, with indices: elements by name, joints and signals by port.
function layoutOf(text) {
  const told = new Toml(text).read();
  const named = list => (list || []).map(one => one.name);
  const elements = new Map();
  for (const name of told.border) elements.set(name, {kind: "border", section: null});
  for (const one of told.track) elements.set(one.name, {kind: "track", section: one.section});
  for (const one of told.point) elements.set(one.name, {kind: "point", section: one.section});
  const joints = new Map(told.joint.flatMap(([one, other]) => [[one, other], [other, one]]));
  const signals = new Map(told.signal.map(one => [one.name, one.at]));
  const signalAt = new Map(told.signal.map(one => [one.at, one.name]));
  const all = {name: told.station.name, sections: told.section, borders: told.border, points: named(told.point), elements, joints, signals, signalAt};
  all.detectorOf = new Map(told.detector.flatMap(one => one.sections.map(section => [section, one.name])));
  all.nodes = [told.station.name, ...signals.keys(), ...all.points, ...named(told.detector)];
  all.routes = told.route.map(one => routeOf(all, one));
  return all;
}

// A route with what is drawn of each of its elements: a track, or the tip and the leg of a point.
function routeOf(all, told) {
  const parts = [];
  let entered = all.joints.get(all.signals.get(told.entry));
  for (const left of told.path) {
    const [name, port] = left.split("."), {kind, section} = all.elements.get(name);
    parts.push({section, drawn: kind === "track" ? ["track." + name] : [entered.split(".")[1] + "." + name, port + "." + name]});
    entered = all.joints.get(left) || "";
  }
  const sections = parts.map(part => part.section).filter((section, at, of) => section !== of[at - 1]);
  const points = {...told.points, ...told.flank};
  return {name: told.name, entry: told.entry, exit: told.exit, kind: all.borders.includes(told.exit) ? "border" : "signal", parts, sections, points, extra: told.extra || []};
}

// ---- words and things

const words = (kind, name) => (known.get(kind + " " + name) || "").split(" ");
const first = (kind, name) => words(kind, name)[0];
const group = (kind, name) => by(kind + "." + name);
const route = name => layout.routes.find(one => one.name === name);
const held = name => first("route", name) === "set";
// What a signal shows; of a node, what it indicates, as long as its link is up.
const aspect = name => first("shows", name) || (first("link", name) === "ready" && first("indicates", name)) || "unknown";
const occupancy = name => first("stands", name) || first("section", name);
// What the interlocking knows of a section: what is told of that, or what its detector tells as long as its link is up.
const reported = name => first("section", name) || (first("link", layout.detectorOf.get(name)) === "ready" ? first("stands", name) : "unknown");
// What is closed is told of each thing: of a point at each side.
const isClosed = (kind, name) => first("closed-" + kind, name) === "yes";
const SIDES = ["left", "right"];
const closedSides = name => SIDES.filter(side => isClosed(side, name));
const isAutomatic = name => first("automatic", name) === "yes";
const waitsAt = name => +first("waits", name) || 0;
const isReleased = name => first("released", name) === "yes";
const authority = name => { const said = words("signal", name); return said[0] === "stop" || said.length < 2 ? null : said[1]; };
const isWorld = () => station.kind === "world";
// A panel of a node that doesn't answer: nothing is known then.
const isApart = () => !isWorld() && first("link", layout.nodes[0]) === "lost";

function element(parent, tag, attributes, text) {
  const made = document.createElementNS(SVG, tag);
  for (const [name, value] of Object.entries(attributes)) made.setAttribute(name, value);
  if (text) made.textContent = text;
  parent.append(made);
  return made;
}

function html(tag, attributes, ...inside) {
  const made = Object.assign(document.createElement(tag), attributes);
  made.append(...inside);
  return made;
}

function say(text, kind) {
  by("p-said").textContent = text;
  by("p-word").dataset.kind = kind || "";
}

// ---- commands, one after another: two of them on their way at once might come in another order

const asked = new Map();
let sent = Promise.resolve();

// What a train asks for is told only where it is refused.
function command(line, isQuiet) {
  asked.set(line, {at: performance.now(), isQuiet});
  sent = sent.then(() => send(line));
  return sent;
}

async function send(line) {
  try {
    const headers = {"X-Token": station.token, "Content-Type": "text/plain"};
    const answer = await fetch("/command", {method: "POST", headers, body: line, signal: AbortSignal.timeout(5000)});
    if (!answer.ok) say(line + ": " + (await answer.text()), "refused");
  } catch {
    say(line + ": the panel doesn't answer", "refused");
  }
}

// ---- the plan

function drawPlan() {
  by("p-plan").innerHTML = station.svg.slice(station.svg.indexOf("<svg"));
  const plan = by("p-plan").querySelector("svg");
  plan.removeAttribute("width");
  plan.removeAttribute("height");
  plan.querySelectorAll("#notes,.detector").forEach(of => of.remove());
  fitPlan(plan);
  for (const name of layout.signals.keys()) markSignal(name);
  for (const name of layout.borders) markTarget("border", name, boxOf(group("border", name), ".arrow,.name"));
  for (const name of layout.points) markPoint(name);
  for (const name of layout.sections) markSection(name);
  const leader = plan.querySelector("[tabindex]");
  if (leader) leader.setAttribute("tabindex", "0");
}

// The plan without the paper that its notes took. A long one, which is printed in strips, is one strip here, and scrolls.
function fitPlan(plan) {
  const whole = plan.querySelector("defs>g");
  if (whole) {
    plan.querySelectorAll("svg,defs").forEach(of => of.remove());
    plan.append(whole);
  }
  plan.querySelector("rect")?.remove();
  const box = plan.getBBox();
  plan.setAttribute("viewBox", [box.x - 10, box.y - 6, box.width + 20, box.height + 12].join(" "));
  plan.style.minWidth = box.width * 1.1 + "px";
}

// The box about parts of a group.
function boxOf(of, parts) {
  const boxes = [...of?.querySelectorAll(parts) || []].map(part => part.getBBox());
  const x = Math.min(...boxes.map(box => box.x)), y = Math.min(...boxes.map(box => box.y));
  return {x, y, width: Math.max(...boxes.map(box => box.x + box.width)) - x, height: Math.max(...boxes.map(box => box.y + box.height)) - y};
}

// What can be clicked has a place of its own that lights; of all such places one is in the tab order, and arrows go on to the others.
function markTarget(kind, name, box) {
  const of = group(kind, name);
  if (!of) return null;
  of.prepend(element(of, "rect", {class: "hit", x: box.x - 2.5, y: box.y - 2.5, width: box.width + 5, height: box.height + 5, rx: 3}));
  makeButton(of, key => key?.shiftKey && kind === "signal" ? pick(name) : clickTarget(kind, name));
  of.setAttribute("aria-label", kind + " " + name);
  markSigns(kind, name);
  return of;
}

function makeButton(of, does) {
  of.setAttribute("tabindex", "-1");
  of.setAttribute("role", "button");
  of.addEventListener("click", does);
  of.addEventListener("keydown", key => {
    if (key.key !== "Enter" && key.key !== " ") return;
    key.preventDefault();
    key.stopPropagation();
    does(key);
  });
}

function markSection(name) {
  const of = group("section", name);
  if (!of) return;
  fence(of, ".band", ["inner", "outer"]);
  for (const label of of.querySelectorAll(".label")) element(label, "tspan", {class: "sign of-closed"}, "\u22a0");
  if (isWorld()) makeButton(of, key => key?.shiftKey ? pick(name) : clickSection(name));
  else of.addEventListener("click", key => { if (key.shiftKey) pick(name); });
}

function markPoint(name) {
  markSigns("point", name);
  for (const side of SIDES) fence(group(side, name), ".rail", ["bars"]);
  group("point", name)?.addEventListener("click", () => pick(name));
}

// A closed section stands between two lines along its track: two copies of each piece, below it, of which the inner one leaves the edges
// of the outer. A closed leg of a point has bars across it.
function fence(of, piece, copies) {
  const pieces = [...of?.querySelectorAll(piece) || []];
  for (const word of copies) {
    for (const one of pieces) {
      const copy = one.cloneNode();
      copy.setAttribute("class", "fence " + word);
      of.prepend(copy);
    }
  }
}

// A lit lamp has a bar beside its colour: level for stop, upright for proceed, oblique ones in both lamps for slow.
function markSignal(name) {
  const of = group("signal", name);
  if (!of) return;
  const near = of.querySelector(".lamp.near"), distant = of.querySelector(".lamp.distant");
  const [one, other] = [near, distant].map(lamp => ({x: +lamp.getAttribute("cx"), y: +lamp.getAttribute("cy"), r: +lamp.getAttribute("r") - 1}));
  const box = boxOf(of, ".mast,.lamp");
  markTarget("signal", name, box);
  element(of, "line", {class: "bar of-stop", x1: one.x - one.r, y1: one.y, x2: one.x + one.r, y2: one.y});
  element(of, "line", {class: "bar of-proceed", x1: other.x, y1: other.y - other.r, x2: other.x, y2: other.y + other.r});
  for (const [from, to] of [[0, 1], [1, 0]]) element(of, "line", {class: "cross", x1: box.x, y1: box.y + from * box.height, x2: box.x + box.width, y2: box.y + to * box.height});
  for (const {x, y, r} of [one, other]) element(of, "line", {class: "bar of-slow", x1: x - r / 1.5, y1: y + r / 1.5, x2: x + r / 1.5, y2: y - r / 1.5});
}

// Signs behind a name: a lost link, a jammed point, an indication that isn't what was given, a network that brings nothing.
function markSigns(kind, name) {
  const label = group(kind, name)?.querySelector("text.name");
  if (!label) return;
  element(label, "tspan", {class: "sign of-lost"}, "\u2715");
  element(label, "tspan", {class: "sign of-stuck"}, "\u25b2");
  element(label, "tspan", {class: "sign of-unlike"}, "\u2260");
  element(label, "tspan", {class: "sign of-network-a"}, "\u24b6");
  element(label, "tspan", {class: "sign of-network-b"}, "\u24b7");
  if (kind !== "border") element(label, "tspan", {class: "sign of-closed"}, "\u22a0");
}

function setClasses(of, all, now) {
  if (!of) return;
  for (const name of all) of.classList.toggle(name, now.includes(name));
}

// One of two networks, where it brings nothing from a node.
const NETWORKS = ["a", "b"];
const isSilent = (network, name) => first("network-" + network, name) === "lost";

function paintNetworks(of, name) {
  for (const network of NETWORKS) of?.classList.toggle("network-" + network, isSilent(network, name));
}

function paintSignal(name) {
  const of = group("signal", name);
  const given = first("signal", name), indicated = first("indicates", name), way = authority(name);
  setClasses(of, [...ASPECTS, "unknown"], [aspect(name)]);
  of?.classList.toggle("unlike", !isWorld() && !["", "unknown"].includes(indicated) && given !== indicated);
  of?.classList.toggle("lost", first("link", name) === "lost");
  paintNetworks(of, name);
  of?.classList.toggle("closed", isClosed("signal", name));
  const silent = NETWORKS.filter(network => isSilent(network, name)).map(network => ", network " + network.toUpperCase() + " is lost");
  of?.setAttribute("aria-label", "signal " + name + " shows " + aspect(name) + (way === null ? "" : ", route " + way) + (first("link", name) === "lost" ? ", its link is down" : "") + (isClosed("signal", name) ? ", closed" : "") + silent.join(""));
}

function paintPoint(name) {
  const [lies, , drives] = known.has("lies " + name) ? words("lies", name) : words("point", name);
  for (const side of ["left", "right"]) {
    const state = !["left", "right"].includes(lies) || drives ? "moving" : lies === side ? "lies" : "off";
    setClasses(group(side, name), ["lies", "off", "moving"], lies ? [state] : []);
  }
  group("point", name)?.classList.toggle("lost", first("link", name) === "lost");
  paintNetworks(group("point", name), name);
  group("point", name)?.classList.toggle("stuck", first("jam", name) === "yes");
  for (const side of SIDES) group(side, name)?.classList.toggle("closed", isClosed(side, name));
  group("point", name)?.classList.toggle("closed", closedSides(name).length > 0);
}

function paintSection(name) {
  const of = group("section", name);
  setClasses(of, ["occupied", "clear"], [occupancy(name)]);
  of?.classList.toggle("unknown", reported(name) === "unknown");
  of?.classList.toggle("closed", isClosed("section", name));
  of?.setAttribute("aria-label", "section " + name + " " + occupancy(name) + (isClosed("section", name) ? ", closed" : ""));
}

// A route is drawn set over the elements whose sections it still locks: what a train has freed isn't drawn.
function paintRoutes() {
  const set = new Set();
  for (const one of layout.routes.filter(one => held(one.name))) {
    for (const part of one.parts) if (isLocked(part.section, one.name)) part.drawn.forEach(id => set.add(id));
  }
  for (const id of layout.drawn) by(id)?.classList.toggle("set", set.has(id));
}

const isLocked = (section, name) => !known.has("locked " + section) || first("locked", section) === name;

// ---- entry and exit

let entry = null;

const from = name => layout.routes.filter(one => one.entry === name);
// A signal at a border, for trains that come in there, stands for the border, too.
const isExit = (one, kind, name) => one.kind === kind ? one.exit === name : kind === "signal" && layout.signals.get(name) === one.exit + ".end";

// Whether a route could be set, as far as the page sees it. The interlocking decides.
function isPossible(one) {
  if (first("ixl", "") !== "ready" || held(one.name) || first("link", one.entry) === "lost") return false;
  if (one.sections.some(section => reported(section) !== "clear" || isClosed("section", section))) return false;
  if (isClosed("route", one.name) || isClosed("signal", one.entry)) return false;
  if (Object.entries(one.points).some(([point, side]) => isClosed(side, point))) return false;
  if (Object.keys(one.points).some(point => first("link", point) === "lost")) return false;
  return !layout.routes.some(other => held(other.name) && inTheWay(other, one));
}

function inTheWay(other, one) {
  return other.entry === one.entry || other.extra.includes(one.name) || one.extra.includes(other.name)
    || one.sections.some(section => other.sections.includes(section) && isLocked(section, other.name))
    || Object.entries(one.points).some(([point, side]) => point in other.points && other.points[point] !== side && stillHolds(other, point));
}

function stillHolds(other, point) {
  const section = layout.elements.get(point).section;
  return !other.sections.includes(section) || isLocked(section, other.name);
}

function choose(name) {
  entry = name;
  paintChoice();
  hint();
}

function paintChoice() {
  for (const word of ["entry", "can", "cannot", "way"]) by("p-plan").querySelectorAll("." + word).forEach(of => of.classList.remove(word));
  document.querySelectorAll(".p-can").forEach(of => of.classList.remove("p-can"));
  if (!entry) return;
  group("signal", entry)?.classList.add("entry");
  for (const one of from(entry)) {
    const can = isPossible(one), exit = group(one.kind, one.exit);
    if (exit && !exit.classList.contains("can")) setClasses(exit, ["can", "cannot"], [can ? "can" : "cannot"]);
    by("p-route-" + one.name).classList.toggle("p-can", can);
    if (can) one.parts.forEach(part => part.drawn.forEach(id => by(id)?.classList.add("way")));
  }
}

function hint() {
  if (first("ixl", "") === "resume") by("p-hint").textContent = "Resume vouches: every train stands or has left, detection shows each vehicle, nobody works at a point";
  else by("p-hint").textContent = entry ? "from " + entry + ": click an exit that is lit; Esc leaves" : "click an entry signal, then an exit; a click on a signal with authority cancels";
}

function clickTarget(kind, name) {
  const meant = entry ? from(entry).filter(one => isExit(one, kind, name)) : [];
  if (meant.length > 0) return setOneOf(meant);
  if (kind !== "signal") return choose(null);
  const way = entry ? null : authority(name) || waiting(name);
  if (way) return command("cancel " + way);
  if (from(name).length === 0) return say("no route begins at " + name, "refused");
  choose(name === entry ? null : name);
}

// The route from a signal that is set, and of which no section was freed or occupied yet.
function waiting(name) {
  return from(name).find(one => held(one.name) && one.sections.every(section => isLocked(section, one.name) && occupancy(section) === "clear"))?.name;
}

// Where several routes lead there, the list of routes has them.
function setOneOf(meant) {
  if (meant.length === 1) {
    choose(null);
    return command("set " + meant[0].name);
  }
  by("p-route-" + (meant.find(isPossible) || meant[0]).name).focus();
  say("several routes lead there: take one of the list", "");
}

function clickRoute(name) {
  choose(null);
  command((held(name) ? "cancel " : "set ") + name);
}

function clickSection(name) {
  command((occupancy(name) === "occupied" ? "clear " : "occupy ") + name);
}

function drawRoutes() {
  for (const one of layout.routes) {
    const ends = html("span", {className: "p-ends", textContent: one.entry + " \u2192 " + one.exit});
    const button = html("button", {className: "p-route", id: "p-route-" + one.name, onclick: () => clickRoute(one.name)}, html("span", {}), html("span", {textContent: one.name}), ends);
    const small = (id, does) => html("button", {className: "p-small", id: id + one.name, onclick: does});
    by("p-routes").append(html("li", {}, button, small("p-release-", () => release(one.name)), small("p-wait-", () => toggleWait(one.name)), small("p-automatic-", () => toggleAutomatic(one.name))));
  }
}

// What a route is, as a sign and in words.
function stateOf(one) {
  if (!held(one.name)) return ["\u25a1", "free: a click sets"];
  if (isReleased(one.name)) return ["\u25d4", "set, and released: it is freed 120 s after that"];
  return authority(one.entry) === one.name ? ["\u25b6", "set, with authority: a click cancels"] : ["\u25a3", "set, without authority: a click cancels"];
}

function paintList() {
  for (const one of layout.routes) {
    const button = by("p-route-" + one.name), [sign, text] = stateOf(one), closed = isClosed("route", one.name);
    button.setAttribute("aria-pressed", held(one.name));
    button.classList.toggle("p-closed", closed);
    button.children[0].textContent = closed ? "\u22a0" : sign;
    button.title = one.name + ", " + one.entry + " \u2192 " + one.exit + ": " + text + (closed ? "; closed" : "");
    paintSmall("p-release-" + one.name, "\u23cf", "release " + one.name + ": it is cancelled first", false, !held(one.name) || authority(one.entry) === one.name || isReleased(one.name));
    const place = waitsAt(one.name);
    paintSmall("p-wait-" + one.name, place ? String(place) : "\u2026", place ? one.name + " waits at place " + place + ": a click ends that" : one.name + " waits until it can be set", place > 0, held(one.name));
    paintSmall("p-automatic-" + one.name, "\u21bb", isAutomatic(one.name) ? one.name + " is set again and again: a click ends that" : "set " + one.name + " again whenever a train has passed", isAutomatic(one.name), false);
  }
}

function paintSmall(id, text, title, pressed, hidden) {
  const button = by(id);
  button.textContent = text;
  button.title = title;
  button.setAttribute("aria-label", title);
  button.setAttribute("aria-pressed", pressed);
  button.hidden = hidden;
}

function toggleAutomatic(name) {
  command((isAutomatic(name) ? "manual " : "automatic ") + name);
}

function toggleWait(name) {
  command((waitsAt(name) ? "manual " : "queue ") + name);
}

// ---- by hand: what is closed, what waits, and commands that are asked a second time

function drawHand() {
  const thing = by("p-thing"), some = (label, lines) => {
    const of = html("optgroup", {label});
    for (const line of lines) of.append(new Option(line, line));
    if (lines.length) thing.append(of);
  };
  some("sections", layout.sections);
  some("points", layout.points.flatMap(name => [name, name + " left", name + " right"]));
  some("signals", [...layout.signals.keys()]);
  some("routes", layout.routes.map(one => one.name));
  fill(by("p-moved"), layout.points);
  by("p-close").onclick = () => command("close " + thing.value);
  by("p-closings").onclick = () => (by("p-standing").querySelector("button") || thing).focus();
  for (const side of SIDES) by("p-move-" + side).onclick = () => command("move " + by("p-moved").value + " " + side);
}

// A thing of the plan is chosen for what is done by hand.
function pick(name) {
  by("p-thing").value = name;
  if (layout.points.includes(name)) by("p-moved").value = name;
  say(name + " is chosen for what is done by hand", "");
}

// All that is closed: by what words, and what it is.
function closings() {
  const whole = (kind, names) => names.filter(name => isClosed(kind, name)).map(name => ({line: name, kind}));
  const points = layout.points.filter(name => closedSides(name).length).map(name => ({line: closedSides(name).length === 2 ? name : name + " " + closedSides(name)[0], kind: "point"}));
  return [...whole("section", layout.sections), ...points, ...whole("signal", [...layout.signals.keys()]), ...whole("route", layout.routes.map(one => one.name))];
}

let standing = "";

// What is closed, what was released, what waits, and what is automatic, each with the button that ends it.
function paintHand() {
  const all = closings(), waits = layout.routes.filter(one => waitsAt(one.name)).sort((one, other) => waitsAt(one.name) - waitsAt(other.name));
  by("p-closings").hidden = all.length === 0;
  by("p-closings").textContent = "\u22a0 " + all.length + " closed: " + all.map(one => one.line).join(", ");
  by("p-closings").title = by("p-closings").textContent;
  const rows = [];
  const row = (sign, text, ...endings) => rows.push([sign, text, ...endings]);
  for (const {line, kind} of all) row("\u22a0", kind + " " + line, ["Open", () => open(line, kind)], ...sidesOf(line).map(side => [side, () => open(line + " " + side, kind)]));
  for (const one of layout.routes.filter(one => isReleased(one.name))) row("\u25d4", one.name + " is released");
  for (const one of waits) row(String(waitsAt(one.name)), one.name + " waits", ["Leave", () => command("manual " + one.name)]);
  for (const one of layout.routes.filter(one => isAutomatic(one.name))) row("\u21bb", one.name + " is automatic", ["End", () => command("manual " + one.name)]);
  const none = isApart() ? "The node doesn't answer: what is closed isn't known." : "Nothing is closed, and nothing waits.";
  const told = JSON.stringify([rows, none]);
  if (told === standing) return;
  standing = told;
  by("p-standing").replaceChildren(...(rows.length ? rows.map(rowOf) : [html("li", {className: "p-none", textContent: none})]));
}

// A point that is closed at both sides may be opened at one.
const sidesOf = line => layout.points.includes(line) ? SIDES : [];

function rowOf([sign, text, ...endings]) {
  const closed = sign === "\u22a0" ? "p-closed-sign" : "", buttons = endings.map(([textContent, onclick]) => html("button", {textContent, onclick}));
  return html("li", {}, html("span", {className: closed, textContent: sign}), html("span", {className: "p-grow", textContent: text, title: text}), ...buttons);
}

function paintCounts() {
  const [releases, opens] = words("counted", "").map(Number);
  by("p-counts").textContent = isApart() ? "not known" : (releases || 0) + " released, " + (opens || 0) + " opened";
}

// An auxiliary command is asked a second time, and says what it vouches for. It is one more of those that are counted.
function sure(line, head, text, count, yes, no) {
  by("p-sure-head").textContent = head;
  by("p-sure-text").textContent = text;
  by("p-sure-count").textContent = count;
  by("p-sure-yes").textContent = yes;
  by("p-sure-no").textContent = no;
  by("p-sure").returnValue = "";
  by("p-sure").onclose = () => { if (by("p-sure").returnValue === "yes") command(line); };
  by("p-sure").showModal();
  by("p-sure-no").focus();
}

function release(name) {
  const text = "120 s after this the route is freed, whatever is reported of its sections. Who releases vouches that no train is in the route, or that it stands and will not move on.";
  sure("release " + name, "Release route " + name + "?", text, "Releases are counted: " + (words("counted", "")[0] || 0) + " so far.", "Release " + name, "Leave it set");
}

function open(line, kind) {
  const text = "Who opens vouches that nobody works there any more, and that trains may use it: routes are set over it from then on.";
  sure("open " + line, "Open " + kind + " " + line + "?", text, "Openings are counted: " + (words("counted", "")[1] || 0) + " so far.", "Open " + line, "Leave it closed");
}

// ---- refusals

const REFUSALS = {
  1: () => "the table has no such route",
  2: () => "the interlocking was made less than 6 s ago",
  3: () => "the interlocking wasn't told to resume",
  4: () => "the route is set already",
  5: name => "route " + name + " is in the way",
  6: name => "section " + name + " is occupied",
  7: name => "point " + name + " isn't available",
  8: () => "the link of the entry signal isn't ready, or the signal isn't at known stop",
  9: () => "the route isn't set",
  10: name => "section " + name + " isn't known: the link of its detector isn't ready",
  11: () => "there is no such thing",
  12: () => "it wasn't cancelled, or its authority isn't ended",
  13: (name, side) => kindOf(name) + " " + name + (side ? " is closed at the " + side : " is closed"),
  14: name => "route " + name + " is set and uses it",
};
const kindOf = name => layout.sections.includes(name) ? "section" : layout.points.includes(name) ? "point" : layout.signals.has(name) ? "signal" : "route";
const IMPOSSIBLE = {
  1: "there is no such node, section or point",
  2: "the network doesn't have that datagram",
  3: "a clock drifts too far",
  4: "the point isn't driven so",
  5: "a clock is at its limit",
  6: "memory is lacking",
};
const CAUSES = {5: () => "route", 6: () => "section", 7: () => "point", 10: () => "section", 13: name => kindOf(name), 14: () => "route"};

// What is in the way is lit for some seconds, in the plan and in the list.
function light(kind, name) {
  const ids = kind === "route" ? route(name)?.parts.flatMap(part => part.drawn) || [] : kind === "point" ? ["point." + name, "left." + name, "right." + name, "tip." + name] : [kind + "." + name];
  for (const id of ids) lightOne(by(id), "cause");
  by(ids[0])?.scrollIntoView({block: "nearest", inline: "nearest"});
  if (kind === "route") lightOne(by("p-route-" + name), "p-cause");
}

let lit = 0;

function lightOne(of, word) {
  if (!of) return;
  void of.getBoundingClientRect();
  of.classList.add(word);
  clearTimeout(lit);
  lit = setTimeout(unlight, 6000);
}

function unlight() {
  for (const word of ["cause", "p-cause"]) document.querySelectorAll("." + word).forEach(of => of.classList.remove(word));
}

function tellAnswer(line, answer) {
  const [word, code, name, side] = answer.split(" "), meant = route(line.split(" ")[1]);
  line = worded(line);
  unlight();
  if (word === "refused") {
    say(line + " is refused: " + (REFUSALS[code] || (() => answer))(name, side), "refused");
    if (CAUSES[code]) light(CAUSES[code](name), name);
    if (code === "8" && meant) light("signal", meant.entry);
    if (["4", "9", "12"].includes(code) && meant) light("route", meant.name);
  } else if (word === "no") say(line + " can't happen: " + (IMPOSSIBLE[code] || answer), "refused");
  else if (word === "lost") say(line + ": the node doesn't answer", "refused");
  else if (word === "not") say(line + " is done, but " + UNKEPT, "refused");
  else say(line + ": " + answer, "");
}

// ---- the log

const SIGNS = {asked: "\u203a", refused: "\u2716", moved: "\u2237", report: "\u00b7", loss: "\u2715"};

function addRow(time, kind, text) {
  const box = by("p-log"), atEnd = box.scrollHeight - box.scrollTop - box.clientHeight < 30;
  const row = html("div", {}, html("span", {className: "p-time", textContent: time}), html("span", {className: "p-sign", textContent: SIGNS[kind]}), html("span", {textContent: text}));
  row.dataset.kind = kind;
  box.append(row);
  while (box.children.length > 500) box.firstChild.remove();
  if (atEnd) box.scrollTop = box.scrollHeight;
}

// A line of the panel's log: when, what was asked for, and what was answered.
function log(line) {
  const [, time, rest] = line.match(/^(\d+) (.*)$/) || [null, "", line];
  const [what, answer] = rest.split(" = ");
  const at = time === "" ? "" : clock(+time);
  // Of the file of closings its process tells losses alone, and nobody asked for them.
  if (what === "told") return addRow(at, "loss", answer);
  const own = asked.get(what), isOwn = own && performance.now() - own.at < 5000;
  const isRefused = /^(refused|no|lost|not)\b/.test(answer || "");
  const kind = isRefused ? "refused" : /^(occupy|clear) /.test(what) ? "moved" : "asked";
  addRow(at, kind, answer ? worded(what) + ": " + answered(answer) : what);
  if (answer && isOwn && !(own.isQuiet && answer === "ok")) tellAnswer(what, answer);
}

// What `not kept` means.
const UNKEPT = "isn't in the file of closings: after a restart it may be otherwise";

// A command as it is told: of a restart without the clock and the number with which a node begins.
const worded = line => line.replace(/^(restart \S+) .*$/, "$1");

function answered(answer) {
  const [word, code, name, side] = answer.split(" ");
  if (word === "refused") return "refused, " + (REFUSALS[code] || (() => answer))(name, side);
  if (word === "lost") return "not asked, since the node doesn't answer";
  if (word === "not") return "done, but " + UNKEPT;
  return word === "no" ? "can't happen, " + (IMPOSSIBLE[code] || answer) : answer;
}

// What the panel reports of things, as far as a log tells it.
const REPORTS = {
  shows: (name, said) => "signal " + name + " shows " + said,
  indicates: (name, said) => isWorld() ? null : "signal " + name + " indicates " + said,
  section: (name, said) => "section " + name + " is reported " + said,
  stands: (name, said) => known.has("section " + name) ? null : "section " + name + " is " + said,
  lies: (name, said) => "point " + name + (said.includes("driven") ? " is driven " + said.split(" ")[2] : said === "none" ? " lies at no end" : " lies " + said),
  point: (name, said) => "point " + name + " is known " + (said === "unknown" ? "at no side" : said),
  route: (name, said) => "route " + name + " is " + said,
  link: (name, said) => "the link of " + name + " is " + said,
  "network-a": (name, said) => silence("A", name, said),
  "network-b": (name, said) => silence("B", name, said),
  jam: (name, said) => "point " + name + (said === "yes" ? " doesn't arrive any more" : " arrives again"),
  cut: (name, said) => name + (said === "yes" ? " is cut off" : " isn't cut off any more"),
  "closed-section": (name, said) => closing("section " + name, said),
  "closed-left": (name, said) => closing("point " + name + " left", said),
  "closed-right": (name, said) => closing("point " + name + " right", said),
  "closed-signal": (name, said) => closing("signal " + name, said),
  "closed-route": (name, said) => closing("route " + name, said),
  released: (name, said) => said === "yes" ? "route " + name + " is released" : null,
  automatic: (name, said) => "route " + name + (said === "yes" ? " is automatic" : " isn't automatic any more"),
  waits: (name, said) => said === "-" ? "route " + name + " waits no more" : "route " + name + " waits at place " + said,
  ixl: (name, said) => MODES[said],
};
const closing = (what, said) => what + (said === "yes" ? " is closed" : " is open again");
const silence = (network, name, said) => "network " + network + (said === "lost" ? " brings nothing from " : " is back at ") + name;
const MODES = {ready: "the interlocking takes commands", holding: "the interlocking holds", resume: "the interlocking waits for resume"};

function report(key, said) {
  const [kind, name] = key.split(" "), text = REPORTS[kind]?.(name, said);
  // Where the node doesn't answer nothing is known: one line tells that.
  if (isApart() && name !== layout.nodes[0]) return;
  if (text) addRow(clock(now()), said === "lost" || said === "unknown" ? "loss" : "report", text);
}

function clock(ms) {
  const s = Math.floor(ms / 1000), two = n => String(n).padStart(2, "0");
  return two(Math.floor(s / 3600)) + ":" + two(Math.floor(s / 60) % 60) + ":" + two(s % 60) + "." + Math.floor(ms % 1000 / 100);
}

// ---- trains: they occupy and clear sections, and do nothing else

// The places of a train are elements with the ports by which it came in and goes out, its head last.
let trains = [];
const SPEEDS = [[0, "stands"], [8, "slow"], [4, "medium"], [2, "fast"], [0.8, "very fast"]];

const headOf = train => train.places.at(-1);
const sectionAt = place => layout.elements.get(place.name).section;

// Where a train may be put: at a border, which it enters by, and in a section, in front of a signal if it has any.
function places() {
  const all = layout.borders.map(name => ({text: "border " + name, place: {name, in: null, out: "end"}}));
  for (const section of layout.sections) {
    const inside = [...layout.elements].filter(([, one]) => one.section === section);
    const signals = [...layout.signals].filter(([, at]) => layout.elements.get(at.split(".")[0]).section === section);
    for (const [signal, at] of signals) all.push({text: "section " + section + ", to " + signal, place: facing(...at.split("."))});
    if (signals.length === 0 && inside.length) all.push({text: "section " + section, place: facing(inside[0][0], inside[0][1].kind === "track" ? "b" : "tip")});
  }
  return all;
}

// The place of a train that is to leave an element by a port.
function facing(name, out) {
  const lies = words("lies", name)[0];
  const enters = {a: "b", b: "a", end: null, left: "tip", right: "tip", tip: lies === "right" ? "right" : "left"};
  return {name, in: enters[out], out};
}

function putTrain() {
  const chosen = places()[by("p-place").selectedIndex];
  if (!chosen) return;
  let free = 101;
  while (trains.some(train => train.name === String(free))) free += 1;
  const section = sectionAt(chosen.place);
  const train = {name: String(free), places: [chosen.place], sections: section ? [section] : [], pace: 0, glide: 0, next: 0, why: ""};
  if (section) command("occupy " + section, true);
  trains.push(train);
  drawTrains();
}

// The place that is entered by a port, by how points lie, or why there is none.
function entered(port) {
  const [name, side] = port.split("."), {kind} = layout.elements.get(name);
  if (kind === "border") return {name, in: side, out: null};
  if (kind === "track") return {name, in: side, out: side === "a" ? "b" : "a"};
  const lies = words("lies", name)[0];
  if (lies !== "left" && lies !== "right") return {why: "point " + name + " isn't at an end"};
  if (side === "tip") return {name, in: side, out: lies};
  return side === lies ? {name, in: side, out: "tip"} : {why: "point " + name + " lies " + lies};
}

// What a train goes on to, or why it stops.
function ahead(train) {
  const head = headOf(train), port = head.name + "." + head.out;
  const signal = layout.signalAt.get(port);
  if (signal && !["proceed", "slow"].includes(aspect(signal))) return {why: signal + " shows " + aspect(signal)};
  const joined = layout.joints.get(port);
  if (!joined) return {why: "the track ends"};
  const place = entered(joined), section = place.why ? null : sectionAt(place);
  if (section && !train.sections.includes(section) && occupancy(section) === "occupied") return {why: section + " is occupied"};
  return place;
}

// A train goes on by one element in so many seconds: its head is in the next section after a third of them, its tail has left the last one then.
function move(train, seconds) {
  if (headOf(train).out === null) return false;
  const place = ahead(train);
  train.why = place.why || "";
  if (place.why) return false;
  train.places.push(place);
  train.glide = seconds;
  const section = sectionAt(place);
  if (section && !train.sections.includes(section)) {
    train.sections.push(section);
    setTimeout(() => command("occupy " + section, true), seconds * 350);
  }
  setTimeout(() => clearBehind(train, place), seconds * 900 + 250);
  return true;
}

function clearBehind(train, place) {
  const here = sectionAt(place), at = train.places.indexOf(place);
  if (at < 0) return;
  train.places.splice(0, at);
  const kept = new Set(train.places.map(sectionAt));
  for (const section of train.sections.filter(section => section !== here && !kept.has(section))) command("clear " + section, true);
  train.sections = train.sections.filter(section => kept.has(section));
  if (place.out === null) trains = trains.filter(one => one !== train);
  drawTrains();
}

// By hand a train goes on until its head is in another section.
function stepOnce(train) {
  const before = sectionAt(headOf(train));
  while (move(train, 0.6)) if (sectionAt(headOf(train)) !== before) break;
  if (train.why) say(train.name + " waits: " + train.why, "");
  drawTrains();
}

function turn(train) {
  if (headOf(train).in === null || headOf(train).out === null) return;
  train.places = train.places.map(place => ({name: place.name, in: place.out, out: place.in})).reverse();
  drawTrains();
}

function takeOff(train) {
  for (const section of train.sections) command("clear " + section, true);
  trains = trains.filter(one => one !== train);
  drawTrains();
}

function driveTrains() {
  const at = performance.now();
  for (const train of [...trains]) {
    if (train.pace === 0 || at < train.next) continue;
    const before = train.why;
    if (move(train, train.pace)) train.next = at + train.pace * 1000;
    if (train.next > at || train.why !== before) drawTrains();
  }
}

function drawTrains() {
  const list = by("p-trains");
  for (const row of [...list.children]) if (!trains.includes(row.train)) row.remove();
  for (const train of trains) {
    const row = [...list.children].find(row => row.train === train) || newRow(train);
    const where = train.sections.join("+") || "at border " + headOf(train).name;
    row.children[1].textContent = where;
    row.lastChild.textContent = train.why ? "waits: " + train.why : "";
    row.lastChild.hidden = !train.why;
  }
  paintTrains();
  sessionStorage.setItem("trains", JSON.stringify({token: station.token, trains}));
}

function newRow(train) {
  const speed = html("select", {ariaLabel: "speed of " + train.name}, ...SPEEDS.map(([pace, text]) => new Option(text, pace)));
  speed.value = train.pace;
  speed.onchange = () => { train.pace = +speed.value; train.next = 0; };
  const button = (text, title, does) => html("button", {textContent: text, title, onclick: does});
  const row = html("li", {}, html("b", {textContent: train.name}), html("span", {className: "p-grow"}), speed,
    button("Step", "to the next section", () => stepOnce(train)), button("\u21c4", "turn round", () => turn(train)), button("\u2715", "take it off", () => takeOff(train)), html("span", {className: "p-why"}));
  row.train = train;
  by("p-trains").append(row);
  return row;
}

// Trains of this page, after it was loaded anew.
function keepTrains() {
  const kept = JSON.parse(sessionStorage.getItem("trains") || "{}");
  if (kept.token === station.token) trains = kept.trains.map(train => ({...train, places: train.places.slice(-1), next: 0}));
  drawTrains();
}

// The middle of what is drawn of the element in which the head of a train is.
function middleOf(place) {
  const {kind} = layout.elements.get(place.name);
  const side = place.out === "tip" ? place.in : place.out;
  const rail = kind === "border" ? null : group(kind === "track" ? "track" : side, place.name)?.querySelector(".rail");
  if (rail) return rail.getPointAtLength(rail.getTotalLength() / 2);
  const box = boxOf(group(kind, place.name), kind === "border" ? ".arrow" : ".name");
  return {x: box.x + box.width / 2, y: box.y + box.height / 2};
}

function paintTrains() {
  const plan = by("p-plan").querySelector("svg");
  for (const of of plan.querySelectorAll(".train")) if (!trains.includes(of.train)) of.remove();
  for (const train of trains) {
    const of = [...plan.querySelectorAll(".train")].find(of => of.train === train) || newTrain(plan, train);
    const at = middleOf(headOf(train));
    of.style.transition = "transform " + train.glide + "s linear";
    of.style.transform = "translate(" + at.x + "px," + at.y + "px)";
  }
}

function newTrain(plan, train) {
  const of = element(plan, "g", {class: "train"});
  element(of, "rect", {x: -12, y: -6.5, width: 24, height: 13, rx: 4});
  element(of, "text", {x: 0, y: 3, "text-anchor": "middle"}, train.name);
  of.train = train;
  return of;
}

// ---- faults

function fill(select, names) {
  for (const name of names) select.append(new Option(name, name));
}

function drawFaults() {
  fill(by("p-place"), places().map(place => place.text));
  fill(by("p-node"), layout.nodes);
  fill(by("p-point"), layout.points);
  by("p-cut").onclick = () => command("cut " + by("p-node").value);
  by("p-restart").onclick = () => command("restart " + by("p-node").value + " 0 " + Math.floor(Math.random() * 4294967296));
  by("p-jam").onclick = () => command("jam " + by("p-point").value);
  by("p-drop").onchange = input => command("drop " + Math.max(0, Math.floor(+input.target.value)));
  by("p-delay").onchange = input => command("delay " + Math.min(2000, Math.max(0, Math.floor(+input.target.value))));
  by("p-put").onclick = putTrain;
  for (const box of ["p-trains-box", "p-faults-box"]) by(box).hidden = !isWorld();
  document.querySelector("main").style.gridTemplateColumns = isWorld() ? "" : "1.1fr 1fr 2fr";
}

// What is disturbed, each with the button that ends it, and what follows from it.
function paintFaults() {
  const rows = [];
  const row = (text, ending, words) => rows.push(html("li", {}, html("span", {className: "p-grow", textContent: text, title: text}), ...(ending ? [html("button", {textContent: ending, onclick: () => command(words)})] : [])));
  const disturbed = kind => [...known].filter(([key, said]) => key.startsWith(kind + " ") && said === "yes").map(([key]) => key.slice(kind.length + 1));
  for (const name of disturbed("cut")) row("\u2702 " + name + " is cut off", "Mend", "mend " + name);
  for (const name of disturbed("jam")) row("\u25b2 " + name + " doesn't arrive", "Free", "unjam " + name);
  const lost = lostLinks();
  if (lost.length) rows.push(html("li", {textContent: "\u2715 links down: " + lost.join(", ")}));
  if (by("p-faults").textContent !== rows.map(row => row.textContent).join("")) by("p-faults").replaceChildren(...rows);
  const one = first("drop", ""), late = first("delay", "");
  by("p-drop-now").textContent = one === "" || one === "0" ? "now none" : "now one in " + one;
  by("p-delay-now").textContent = "now " + (late || "0") + " ms";
}

const lostLinks = () => layout.nodes.filter(name => first("link", name) === "lost");

// ---- the strip chart, over the station's time

const WINDOW = 180000, LEAST = 30000;
const CLOSINGS = ["closed-section", "closed-left", "closed-right", "closed-signal", "closed-route"];
const ORDER = [...CLOSINGS, "shows", "indicates", "route", "stands", "section", "lies", "point", "link"];
const NAMED = {shows: "signal", indicates: "signal", stands: "section", lies: "point", "closed-section": "closed", "closed-left": "closed l", "closed-right": "closed r", "closed-signal": "closed", "closed-route": "closed"};
const RESTS = ["stop", "clear", "free", "ready", "left", "right", "no"];
const strips = new Map();
let told = {time: 0, at: 0};
let began = null;

// Where no time is told, as by a node, it is that since the page was loaded.
const now = () => told.time + performance.now() - told.at;

// What is shown of the past: half a minute at first, and up to three minutes.
const span = until => Math.min(WINDOW, Math.max(LEAST, until - (began ??= until)));

function sample(key, said) {
  const [kind, name] = key.split(" ");
  if (!ORDER.includes(kind)) return;
  if ({indicates: "shows", section: "stands", point: "lies"}[kind] && known.has({indicates: "shows", section: "stands", point: "lies"}[kind] + " " + name)) return;
  const strip = strips.get(key) || [];
  const value = said.includes("driven") ? "none" : said.split(" ")[0];
  if (strip.length && strip.at(-1).value === value) return;
  strip.push({at: now(), value});
  strips.set(key, strip);
}

// The strips that changed in the window, or don't rest: the latest that there is room for, in the order of their kinds.
function liveStrips(until, room) {
  const all = [];
  for (const [key, strip] of strips) {
    while (strip.length > 1 && strip[1].at < until - WINDOW) strip.shift();
    if (strip.length > 1 || !RESTS.includes(strip[0].value)) all.push([key, strip]);
  }
  const weight = ([key, strip]) => strip.at(-1).at - (key.startsWith("link ") ? LEAST : 0);
  const latest = all.sort((one, other) => weight(other) - weight(one)).slice(0, room);
  const place = key => ORDER.indexOf(key.split(" ")[0]);
  return latest.sort((one, other) => place(one[0]) - place(other[0]) || one[0].localeCompare(other[0], "en", {numeric: true}));
}

function drawChart() {
  const canvas = by("p-chart"), scale = devicePixelRatio || 1, width = canvas.clientWidth, height = canvas.clientHeight;
  canvas.width = width * scale;
  canvas.height = height * scale;
  const pen = canvas.getContext("2d"), until = now(), left = 104, row = 13, foot = 15;
  pen.scale(scale, scale);
  pen.font = "11px ui-monospace,monospace";
  const shown = span(until), x = at => left + (width - left - 6) * (1 - (until - Math.max(at, until - shown)) / shown);
  drawMinutes(pen, x, until, shown, height, foot);
  liveStrips(until, Math.max(0, Math.floor((height - foot - 2) / row))).forEach(([key, strip], place) => {
    const [kind, name] = key.split(" "), y = place * row + row / 2 + 2;
    pen.fillStyle = "#111";
    pen.fillText(((NAMED[kind] || kind) + " " + name).slice(0, 15), 4, y + 4);
    strip.forEach((one, index) => drawPiece(pen, one.value, x(one.at), x(strip[index + 1]?.at ?? until), y));
  });
}

function drawMinutes(pen, x, until, shown, height, foot) {
  const least = 44 * shown / (x(until) - x(until - shown)), each = [10000, 30000, 60000].find(one => one >= least) || 60000;
  pen.textAlign = "center";
  for (let at = Math.floor(until / each) * each; at >= Math.max(0, until - shown); at -= each) {
    pen.fillStyle = "#dde3e8";
    pen.fillRect(x(at), 0, 1, height - foot);
    pen.fillStyle = "#4a5b68";
    if (x(at) > 124 && x(at) < x(until) - 14) pen.fillText(clock(at).slice(3, 8), x(at), height - 4);
  }
  pen.textAlign = "left";
}

// A piece of a strip: a thin line at rest; full for proceed, half for slow, hatched for lost and unknown, black for occupied, a frame for set,
// crosses for closed.
function drawPiece(pen, value, from, to, y) {
  const width = Math.max(1, to - from);
  pen.strokeStyle = pen.fillStyle = {proceed: "#1a8f3c", slow: "#c98a00", occupied: "#111", lost: "#b5009b", unknown: "#b5009b", none: "#b5009b", yes: "#c25700"}[value] || "#14682e";
  if (value === "proceed" || value === "occupied") pen.fillRect(from, y - 5, width, 10);
  else if (value === "slow") pen.fillRect(from, y, width, 5);
  else if (value === "lost" || value === "unknown" || value === "none") hatch(pen, from, to, y);
  else if (value === "yes") crosses(pen, from, to, y);
  else if (value === "right") pen.fillRect(from, y + 3, width, 2);
  else if (RESTS.includes(value)) { pen.fillStyle = "#8a97a0"; pen.fillRect(from, value === "left" ? y - 4 : y, width, value === "left" ? 2 : 1); }
  else pen.strokeRect(from + .5, y - 4.5, Math.max(0, width - 1), 9);
}

function hatch(pen, from, to, y) {
  for (let at = from; at < to; at += 5) {
    pen.beginPath();
    pen.moveTo(at, y + 4);
    pen.lineTo(Math.min(at + 5, Math.max(to, from + 1)), y - 4);
    pen.stroke();
  }
}

function crosses(pen, from, to, y) {
  for (let at = from; at < to; at += 9) {
    const until = Math.min(at + 8, Math.max(to, from + 1));
    for (const [one, other] of [[4, -4], [-4, 4]]) {
      pen.beginPath();
      pen.moveTo(at, y + one);
      pen.lineTo(until, y + other);
      pen.stroke();
    }
  }
}

// ---- what the panel says

let heldSince = null;

function paintHeader() {
  const mode = first("ixl", ""), left = heldSince === null ? "" : Math.max(0, Math.ceil((6000 - (now() - heldSince)) / 1000));
  if (isApart()) return paintApart();
  by("p-mode").textContent = {ready: "takes commands", holding: heldSince === null ? "holds for 6 s" : "holds: " + left + " s", resume: "waits for resume"}[mode] || "no answer yet";
  by("p-mode").dataset.mode = mode;
  by("p-resume").hidden = mode !== "resume";
  by("p-time").textContent = clock(first("time", "") || now());
  const lost = lostLinks(), silent = NETWORKS.map(network => [network, layout.nodes.filter(name => isSilent(network, name))]).filter(([, names]) => names.length > 0);
  const links = lost.length === 0 ? "all links up" : "\u2715 down: " + firstOf(lost);
  by("p-links").textContent = [links, ...silent.map(([network, names]) => "network " + network.toUpperCase() + " lost: " + firstOf(names))].join("; ");
  by("p-links").dataset.bad = lost.length + silent.length === 0 ? "no" : "yes";
  const [bytes, limit] = words("memory", "").map(Number);
  by("p-memory").textContent = limit ? (bytes / 1048576).toFixed(1) + " of " + Math.round(limit / 1048576) + " MiB" : "";
  by("p-memory").dataset.bad = bytes > limit * 0.9 ? "yes" : "no";
}

// The first three names, and how many more there are.
const firstOf = names => names.slice(0, 3).join(", ") + (names.length > 3 ? " and " + (names.length - 3) + " more" : "");

function paintApart() {
  by("p-mode").textContent = "the node " + layout.nodes[0] + " doesn't answer";
  by("p-mode").dataset.mode = "gone";
  by("p-resume").hidden = true;
  by("p-time").textContent = clock(first("time", "") || now());
  by("p-links").textContent = "";
}

// A line is a kind and its words; the kinds of one thing alone have no name.
const ALONE = ["time", "ixl", "memory", "drop", "delay", "lost", "counted"];

// The thing of which the line at a place tells.
const placed = new Map();

function take(place, line, isFirst) {
  if (line === "") return forget(place);
  const [kind, name, ...rest] = line.split(" ");
  const key = ALONE.includes(kind) ? kind + " " : kind + " " + name;
  placed.set(place, key);
  const said = (ALONE.includes(kind) ? [name, ...rest] : rest).join(" ");
  if (known.get(key) === said) return kind;
  known.set(key, said);
  if (kind === "ixl") hint();
  if (kind === "ixl") heldSince = said === "holding" && !isFirst ? now() : null;
  sample(key, said);
  if (!isFirst) report(key, said);
  return kind;
}

// Nothing is told there any more.
function forget(place) {
  const key = placed.get(place) || "";
  known.delete(key);
  return key.split(" ")[0];
}

// Time first: what else changed is told with it.
function takeTime(changed) {
  const line = changed.map(([, line]) => line).find(line => line.startsWith("time "));
  if (line) told = {time: +line.slice(5), at: performance.now()};
}

function paint(kinds) {
  const any = (...some) => some.some(kind => kinds.has(kind));
  if (any("shows", "indicates", "signal", "link", "network-a", "network-b", "closed-signal")) [...layout.signals.keys()].forEach(paintSignal);
  if (any("lies", "point", "jam", "link", "network-a", "network-b", "closed-left", "closed-right")) layout.points.forEach(paintPoint);
  if (any("stands", "section", "link", "closed-section")) layout.sections.forEach(paintSection);
  if (any("route", "locked", "signal", "released", "automatic", "waits", "closed-route")) { paintRoutes(); paintList(); }
  if (any("released", "automatic", "waits", "link", ...CLOSINGS)) paintHand();
  if (any("counted", "link")) paintCounts();
  if (any("cut", "jam", "link", "drop", "delay")) paintFaults();
  if (entry && any("route", "locked", "section", "stands", "link", "ixl", ...CLOSINGS)) paintChoice();
  paintHeader();
}

async function ask() {
  const answer = await fetch("/state?after=" + number, {cache: "no-store", signal: AbortSignal.timeout(5000)});
  if (!answer.ok) throw new Error(answer.status);
  const state = await answer.json();
  if (state.number < number) location.reload();
  const kinds = new Set(), isFirst = number === 0;
  takeTime(state.changed);
  for (const line of state.log) log(line);
  for (const [place, line] of state.changed) kinds.add(take(place, line, isFirst));
  number = state.number;
  paint(kinds);
}

let isGone = false;

// A panel that was started anew gives another token: then the page is loaded again.
async function isSame() {
  return (await (await fetch("/station", {cache: "no-store", signal: AbortSignal.timeout(5000)})).json()).token === station.token;
}

async function askOn() {
  let wait = 50;
  try {
    if (isGone && !await isSame()) location.reload();
    await ask();
    isGone = false;
  } catch {
    isGone = true;
    wait = 1000;
    by("p-mode").textContent = "the panel doesn't answer";
    by("p-mode").dataset.mode = "gone";
  }
  document.body.classList.toggle("p-gone", isGone || isApart());
  setTimeout(askOn, wait);
}

// ---- the keyboard

function onKey(key) {
  if (key.ctrlKey || key.metaKey || key.altKey || by("p-keys").open || by("p-sure").open) return;
  const isInList = document.activeElement.matches(".p-route");
  if (isInList && key.shiftKey && /^[A-Za-z0-9-]$/.test(key.key)) return spell(key.key);
  if (key.key === "x" || key.key === "X") return cancelAll(key);
  if (key.target.matches("input,select") && key.key !== "Escape") return;
  const does = {
    Escape: () => choose(null),
    r: () => { if (first("ixl", "") === "resume") command("resume"); },
    p: () => by("p-plan").querySelector("[tabindex='0']")?.focus(),
    "/": () => by("p-routes").querySelector("button")?.focus(),
    a: () => ofRoute(toggleAutomatic),
    w: () => ofRoute(toggleWait),
    h: () => by("p-thing").focus(),
    t: () => by("p-place").focus(),
    s: () => { if (trains[0]) stepOnce(trains[0]); },
    f: () => by("p-node").focus(),
    l: () => by("p-log").focus(),
    "?": () => by("p-keys").showModal(),
  }[key.key] || arrow(key.key);
  if (does) { key.preventDefault(); does(); }
}

// Something is done with the route that has the focus in their list.
function ofRoute(does) {
  const focused = document.activeElement;
  if (focused.matches(".p-route")) does(focused.id.slice("p-route-".length));
}

function cancelAll(key) {
  key.preventDefault();
  choose(null);
  command("cancel all");
}

function arrow(key) {
  const way = {ArrowUp: [0, -1], ArrowDown: [0, 1], ArrowLeft: [-1, 0], ArrowRight: [1, 0]}[key], focused = document.activeElement;
  if (!way) return null;
  if (focused.matches(".p-route")) return way[1] ? () => focusRoute(focused, way[1]) : null;
  return focused.closest("#p-plan") ? () => focusPlace(focused, way) : null;
}

let spelt = {text: "", at: 0};

// Letters with shift go on to the first route whose name begins so.
function spell(letter) {
  const at = performance.now(), text = ((at - spelt.at < 1500 ? spelt.text : "") + letter).toLowerCase();
  spelt = {text, at};
  const one = layout.routes.find(one => one.name.toLowerCase().startsWith(text));
  if (one) by("p-route-" + one.name).focus();
}

function focusRoute(focused, by) {
  const all = [...document.querySelectorAll(".p-route")];
  all[(all.indexOf(focused) + by + all.length) % all.length].focus();
}

// The nearest place of the plan in the way of an arrow: what lies aside counts three times.
function focusPlace(focused, [x, y]) {
  const middle = of => { const box = (of.querySelector(".hit,.label") || of).getBoundingClientRect(); return [box.x + box.width / 2, box.y + box.height / 2]; };
  const [here, there] = middle(focused);
  let best = null, least = Infinity;
  for (const of of by("p-plan").querySelectorAll("[tabindex]")) {
    const [right, down] = [middle(of)[0] - here, middle(of)[1] - there];
    const along = right * x + down * y, aside = Math.abs(right * y) + Math.abs(down * x);
    if (of !== focused && along > 2 && along + 3 * aside < least) { best = of; least = along + 3 * aside; }
  }
  if (!best) return;
  focused.setAttribute("tabindex", "-1");
  best.setAttribute("tabindex", "0");
  best.focus();
}

// ---- keys and signs

const LINE = (width, colour, dashes) => "<path d='M2 9h50' style='stroke:" + colour + ";stroke-width:" + width + ";stroke-dasharray:" + (dashes || "none") + "'/>";
const BAND = LINE(9, "#dce6f2"), RAIL = LINE(2.5, "#000");
const LAMPS = (one, other, bars) => "<g style='stroke:#000'><circle cx='17' cy='9' r='6' fill='" + one + "'/><circle cx='31' cy='9' r='6' fill='" + other + "'/></g><path d='" + bars + "' style='stroke-width:1.7;stroke:" + (one === other ? "#111" : "#fff") + "'/>";
const SAMPLES = [
  [LINE(12, "#c9302c", "5 1.6") + RAIL, "occupied section"],
  [LINE(9, "#777", "1.5 3") + RAIL, "section of a detector whose link is down"],
  [BAND + LINE(5, "#14682e"), "locked for a route that is set"],
  [BAND + LINE(4, "#0b5fd0", "6 3"), "a route that is possible from the chosen signal"],
  [LINE(12, "#b5009b", "6 3") + RAIL, "the cause of a refusal"],
  [BAND + LINE(2.5, "#000", "1 6"), "moving point, or one at no end position"],
  [LAMPS("#c9211e", "#fff", "M12 9h10"), "stop"],
  [LAMPS("#fff", "#1a8f3c", "M31 4v10"), "proceed"],
  [LAMPS("#f0b400", "#f0b400", "M14 12l6-6M28 12l6-6"), "slow"],
  ["<text x='2' y='14' style='fill:#b5009b;font:bold 14px monospace'>\u2715 \u25b2 \u2260</text>", "link down; point doesn't arrive; shows other than given"],
  [LINE(17, "#c25700") + LINE(13, "#fff") + BAND + RAIL, "closed section"],
  [BAND + LINE(13, "#c25700", "1.8 2.6") + RAIL, "leg of a point that is closed at this side"],
  [LAMPS("#c9211e", "#fff", "M12 9h10") + "<path d='M8 2l32 14M8 16l32-14' style='stroke:#c25700;stroke-width:2'/>", "closed signal"],
  ["<text x='2' y='14' style='fill:#c25700;font:bold 14px monospace'>\u22a0</text>", "closed: behind a name, and at a route of the list"],
  ["<text x='2' y='14' style='font:bold 11px monospace'>\u21bb \u2026 \u25d4 \u23cf</text>", "set again by itself; waits until it can be set; released; release"],
  ["<text x='2' y='14' style='fill:#b5009b;font:bold 14px monospace'>\u24b6 \u24b7</text>", "network A, network B brings nothing from there"],
];

function drawSigns() {
  for (const [drawn, text] of SAMPLES) {
    const row = html("tr", {}, html("td", {}), html("td", {textContent: text}));
    row.children[0].innerHTML = "<svg width='56' height='18'>" + drawn + "</svg>";
    by("p-signs").append(row);
  }
}

async function start() {
  station = await (await fetch("/station", {cache: "no-store"})).json();
  layout = layoutOf(station.layout);
  layout.drawn = [...new Set(layout.routes.flatMap(one => one.parts.flatMap(part => part.drawn)))];
  document.title = layout.name + " \u2013 panel";
  by("p-name").textContent = layout.name;
  by("p-name").title = "station " + station.version;
  by("p-record").textContent = station.record ? "record " + station.record.split("/").at(-1) : isWorld() ? "no record" : "";
  by("p-record").title = station.record;
  drawPlan();
  drawRoutes();
  drawHand();
  drawFaults();
  drawSigns();
  keepTrains();
  by("p-resume").onclick = () => command("resume");
  by("p-cancel-all").onclick = () => command("cancel all");
  by("p-help").onclick = () => by("p-keys").showModal();
  by("p-only").onchange = () => { by("p-log").dataset.only = by("p-only").value; };
  document.addEventListener("keydown", onKey);
  hint();
  setInterval(driveTrains, 100);
  setInterval(drawChart, 250);
  askOn();
}

start();
</script>
</body>
</html>
"##;

/// The page of a panel: HTML with its style and its script, and with nothing from elsewhere. It is a function, since a constant is
/// proved anew wherever it is named.
pub fn page() -> &'static str {
    PAGE
}
